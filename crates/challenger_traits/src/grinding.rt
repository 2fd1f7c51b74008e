// Where a check starts, checking and grinding.
ghost use Rattle.std.specs.Prelude.{◌≡◌, ℕ, ◌<◌, true, [], ◌∷◌, Ok, IfOk, IfErr, IsOk, IsTrue};
ghost use Rattle.challenger_traits.specs.Meaning.{Does, reply};
ghost use Rattle.challenger_traits.specs.Grinding.{at_make, check_of, grind_of, LeastWitness};
ghost use Rattle.challenger_traits.specs.Grinding.{CheckRefused};

use crate::{CanObserve, CanSampleBits};
use refusal::Refusal;

/// Where a check starts.
pub trait CanStartCheck: CanObserve<u64> + CanSampleBits {
    ghost check_start: { Self.Make → Self.Held → Self.Held };

    fn start_check(&mut self)
        ensures left { Self.held_value self.new
            ≡ check_start (Self.make self.old) (Self.held_value self.old) }
        ensures kept { Self.make self.new ≡ Self.make self.old };

    // Where a check starts, a code is observed.
    ghost takes_code: { (k : Self.Make) (h : Self.Held) (w : ℕ)
        → IsTrue (Self.Holding.can_be_held k h) → w < (Self.CanSampleBits.drawing k).order
        → IsOk (Self.CanObserve.after_observe k (check_start k h) (w ∷ [])) };
}

/// Checking witnesses and searching for them: promised through the meanings of observing, of drawing bits and of where a check starts.
pub trait GrindingChallenger: CanObserve<u64> + CanSampleBits + CanStartCheck {
    fn check_witness(&mut self, bits: u64, witness: u64) -> Result<bool, Refusal>
        ensures does { Does Self.make Self.held_value self.old self.new result
            (check_of (at_make Self.after_observe Self.drawing Self.check_start
            (Self.make self.old)) (Self.held_value self.old) bits witness) }
        ensures refusals { IfErr result
            (CheckRefused (Self.drawing (Self.make self.old)).order bits witness) };

    // The pair is the witness and the trials.
    fn grind(&mut self, bits: u64, budget: u64) -> Result<(u64, u64), Refusal>
        ensures does { Does Self.make Self.held_value self.old self.new result
            (grind_of (at_make Self.after_observe Self.drawing Self.check_start
            (Self.make self.old)) (Self.held_value self.old) bits budget) }
        ensures passes { IfOk result (λ ground. check_of
            (at_make Self.after_observe Self.drawing Self.check_start (Self.make self.old))
            (Self.held_value self.old) bits ground.0 ≡ reply (Ok true) (Self.held_value self.new)) }
        ensures least { LeastWitness (at_make Self.after_observe Self.drawing Self.check_start
            (Self.make self.old)) (Self.held_value self.old) bits budget
            (record { said = result; left = Self.held_value self.new }) };
}
