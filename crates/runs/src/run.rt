// Runs of calls.
ghost use Rattle.std.specs.Prelude.{◌≡◌, ◌≤◌, length, take, drop, IfSome, MatchOption};
ghost use Rattle.std.specs.Prelude.{IsTrue, IsFalse};
ghost use Rattle.runs.specs.Runs.{Run, CanBeHeldAlong, party, repeated_calls, calls_instead, kind};
ghost use Rattle.runs.specs.Runs.{as_list, has_places, Agree};
ghost use Rattle.runs.specs.Interface.{EachRefusedAsChecksAre};

use crate::{Answer, Call, CanTakeCalls, MadeLike};
use challenger_traits::Holding;

/// The prover's run: the answer of each call in its place.
pub fn prove_run<C: CanTakeCalls>(c: &mut C, calls: &[Call], said: &mut [Answer])
    requires places { length said.old ≡ length calls.now }
    ensures run { Run (C.rule (C.make c.old)) calls.now
        (party (C.held_value c.old) said.new (C.held_value c.new)) }
    ensures holds { CanBeHeldAlong (C.rule (C.make c.old)) (C.can_be_held (C.make c.old))
        (C.held_value c.old) calls.now }
    ensures refusals { EachRefusedAsChecksAre calls.now said.new }
    ensures make { C.make c.new ≡ C.make c.old }
{
    for (i, call) in calls.iter().enumerate() {
        said[i] = c.call(call);
    }
}

/// What the verifier calls in the place of a call that got this answer, if anything.
pub fn instead<'a>(call: &Call<'a>, said: &Answer) -> Option<Call<'a>>
    ensures { as_list result ≡ calls_instead (kind call.now) said.now }
{
    match call {
        Call::Grind(bits, _) => match said {
            Answer::Ground(witness, _) => Some(Call::CheckWitness(*bits, *witness)),
            _ => None,
        },
        other => Some(*other),
    }
}

/// The verifier's run: the prover's calls, each passed grind's witness checked in its place, refused grinds left out. It tells how many answers it wrote.
pub fn verify_run<C: CanTakeCalls>(
    c: &mut C,
    calls: &[Call],
    proved: &[Answer],
    said: &mut [Answer],
) -> usize
    requires answers { length proved.now ≡ length calls.now }
    requires places { length said.old ≡ length calls.now }
    ensures run { Run (C.rule (C.make c.old)) (repeated_calls calls.now proved.now)
        (party (C.held_value c.old) (take result said.new) (C.held_value c.new)) }
    ensures count { result ≡ length (repeated_calls calls.now proved.now) }
    ensures few { result ≤ length said.new }
    ensures rest { drop result said.new ≡ drop result said.old }
    ensures refusals { EachRefusedAsChecksAre (repeated_calls calls.now proved.now)
        (take result said.new) }
    ensures make { C.make c.new ≡ C.make c.old }
{
    // Refused grinds are left out, so the count runs apart from the places.
    let mut n = 0;
    for (call, answer) in calls.iter().zip(proved) {
        if let Some(again) = instead(call, answer) {
            said[n] = c.call(&again);
            n += 1;
        }
    }
    n
}

/// Agreement: the prover makes the calls, and the verifier repeats them. None, with nothing moved, if a slice for answers is not as long as the calls; else how many answers the verifier got.
pub fn agree<P: MadeLike<V>, V: CanTakeCalls + Holding<Held = P::Held>>(
    prover: &mut P,
    verifier: &mut V,
    calls: &[Call],
    proved: &mut [Answer],
    said: &mut [Answer],
) -> Option<usize>
    ensures refused { MatchOption result (IsFalse (has_places calls.now proved.old said.old)
        × (prover.new ≡ prover.old) × (verifier.new ≡ verifier.old) × (proved.new ≡ proved.old)
        × (said.new ≡ said.old)) (λ _. IsTrue (has_places calls.now proved.old said.old)) }
    ensures agreement { IfSome result (λ n. P.same_meaning (P.make prover.old) (V.make verifier.old)
        → P.held_value prover.old ≡ V.held_value verifier.old → Agree calls.now
        (party (P.held_value prover.old) proved.new (P.held_value prover.new))
        (party (V.held_value verifier.old) (take n said.new) (V.held_value verifier.new))) }
    ensures proves { IfSome result (λ n. Run (P.rule (P.make prover.old)) calls.now
        (party (P.held_value prover.old) proved.new (P.held_value prover.new))) }
    ensures verifies { IfSome result (λ n. Run (V.rule (V.make verifier.old))
        (repeated_calls calls.now proved.new)
        (party (V.held_value verifier.old) (take n said.new) (V.held_value verifier.new))) }
    ensures count { IfSome result (λ n. n ≡ length (repeated_calls calls.now proved.new)) }
    ensures few { IfSome result (λ n. n ≤ length said.new) }
    ensures rest { IfSome result (λ n. drop n said.new ≡ drop n said.old) }
    ensures refusals { IfSome result (λ n. EachRefusedAsChecksAre calls.now proved.new
        × EachRefusedAsChecksAre (repeated_calls calls.now proved.new) (take n said.new)) }
    ensures makes { (P.make prover.new ≡ P.make prover.old)
        × (V.make verifier.new ≡ V.make verifier.old) }
{
    if proved.len() != calls.len() || said.len() != calls.len() {
        return None;
    }
    prove_run(prover, calls, proved);
    Some(verify_run(verifier, calls, proved, said))
}
