// The two ends, and what playing calls on them gives.
ghost use Rattle.std.specs.Prelude.{◌≡◌};
ghost use Rattle.agreement.specs.Ends.{AgreeIfPlayed, PlayedIfPlaces, slices};

use challenger_traits::Holding;
use runs::{Answer, Call, CanTakeCalls, MadeLike, agree};

/// The two ends of a transcript.
#[derive(Clone, Copy)]
pub struct Ends<C> {
    pub prover: C,
    pub verifier: C,
}

/// The ends after calls were played on them, and how many answers the verifier got; none if a slice for answers was not as long as the calls, and then nothing moved.
#[derive(Clone, Copy)]
pub struct Rehearsal<C> {
    pub ends: Ends<C>,
    pub count: Option<usize>,
}

/// Plays the calls on both ends by `runs::agree`.
pub(crate) fn play<P: MadeLike<V>, V: CanTakeCalls + Holding<Held = P::Held>>(
    prover: &mut P,
    verifier: &mut V,
    calls: &[Call],
    proved: &mut [Answer],
    said: &mut [Answer],
) -> Option<usize>
    ensures agreement { P.same_meaning (P.make prover.old) (V.make verifier.old)
        → P.held_value prover.old ≡ V.held_value verifier.old
        → AgreeIfPlayed (P.held_value prover.old) (V.held_value verifier.old)
        (P.held_value prover.new) (V.held_value verifier.new) calls.now
        (slices proved.new said.new) result }
    ensures played { PlayedIfPlaces (P.rule (P.make prover.old)) (V.rule (V.make verifier.old))
        (P.held_value prover.old) (V.held_value verifier.old) (P.held_value prover.new)
        (V.held_value verifier.new) calls.now (slices proved.old said.old)
        (slices proved.new said.new) result }
    ensures makes { (P.make prover.new ≡ P.make prover.old)
        × (V.make verifier.new ≡ V.make verifier.old) }
{
    agree(prover, verifier, calls, proved, said)
}
