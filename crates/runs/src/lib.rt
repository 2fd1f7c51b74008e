//! Calls as values, and runs of them: the prover's, the verifier's, and the law that the two agree.
#![tactic(auto)]

ghost use Rattle.challenger_traits.specs.Meaning.{Does};
ghost use Rattle.runs.specs.Runs.{Rule, ChecksStand, SameRules};
ghost use Rattle.runs.specs.Lent.{ReadsNumbers};
ghost use Rattle.runs.specs.Interface.{RefusedAsChecksAre};

mod answer;
mod call;
mod interface;
mod run;

pub use answer::Answer;
pub use call::Call;
use challenger_traits::Holding;
pub use interface::{HasOwnCalls, call_interface};
pub use run::{agree, instead, prove_run, verify_run};

/// Whatever takes calls as values. A call that a challenger does not have answers so, by its rule, and moves nothing.
pub trait CanTakeCalls: Holding {
    // What a call says and leaves.
    ghost rule: { Self.Make → Rule (Self.Held) };

    // Where a grind passed, a check of its witness is answered yes and ends where the grind ended; a refused grind changed nothing.
    ghost stands: { (k : Self.Make) → ChecksStand (rule k) };

    // A call means the same wherever the list lies that it lends.
    ghost reads_numbers: { (k : Self.Make) → ReadsNumbers (rule k) };

    fn call(&mut self, call: &Call) -> Answer
        ensures does { Does Self.make Self.held_value self.old self.new result
            (rule (Self.make self.old) (Self.held_value self.old) call.now) }
        ensures refusals { RefusedAsChecksAre call.now result };
}

/// A kind of challenger whose makes can mean the same as those of `V`, also where the two are of different Rust types.
pub trait MadeLike<V: CanTakeCalls + Holding<Held = Self::Held>>: CanTakeCalls {
    // Two makes mean the same: numbers that making fixes for good are equal, and all below is equal in meaning. What making gave to be held is no part of it.
    ghost same_meaning: { Self.Make → V.Make → Type 0 };

    // Then each call means the same to both.
    ghost same_rules: { (k : Self.Make) (l : V.Make) → same_meaning k l
        → SameRules (Self.can_be_held k) (Self.rule k) (V.rule l) };
}
