// The calls that whatever has the interface answers alike.
ghost use Rattle.challenger_traits.specs.Meaning.{Does};
ghost use Rattle.challenger_traits.specs.Grinding.{at_make};
ghost use Rattle.runs.specs.Runs.{Rule};
ghost use Rattle.runs.specs.Interface.{interface_rule, RefusedAsChecksAre};

use crate::{Answer, Call};
use challenger_traits::GrindingChallenger;

/// The calls that a challenger has beside those of the interface.
pub trait HasOwnCalls: GrindingChallenger {
    // What such a call says and leaves.
    ghost own_rule: { Self.Make → Rule (Self.Held) };

    /// One of them; a call that it does not have is absent, and moves nothing.
    fn own_call(&mut self, call: &Call) -> Answer
        ensures does { Does Self.make Self.held_value self.old self.new result
            (own_rule (Self.make self.old) (Self.held_value self.old) call.now) };
}

/// A call of a challenger that has the interface: observe, sample bits, check and grind by the interface, any other by its own calls.
pub fn call_interface<C: HasOwnCalls>(c: &mut C, call: &Call) -> Answer
    ensures does { Does C.make C.held_value c.old c.new result
        (interface_rule (at_make C.after_observe C.drawing C.check_start (C.make c.old))
        (C.own_rule (C.make c.old)) (C.held_value c.old) call.now) }
    ensures refusals { RefusedAsChecksAre call.now result }
{
    match call {
        Call::Observe(codes) => c
            .observe(codes)
            .map_or_else(Answer::Refused, |()| Answer::Done),
        Call::SampleBits(bits) => c
            .sample_bits(*bits)
            .map_or_else(Answer::Refused, Answer::Bits),
        Call::CheckWitness(bits, witness) => c
            .check_witness(*bits, *witness)
            .map_or_else(Answer::Refused, Answer::Checked),
        Call::Grind(bits, budget) => c.grind(*bits, *budget).map_or_else(
            Answer::Refused,
            |(witness, trials)| Answer::Ground(witness, trials),
        ),
        other => c.own_call(other),
    }
}
