// Hash challengers.
ghost use Rattle.std.specs.Prelude.{◌≡◌};
ghost use Rattle.refusal.specs.Made.{MadeUnless};
ghost use Rattle.hasher.specs.SameDigests.{SameDigests};
ghost use Rattle.hash_state.specs.Rules.{initial_no, fresh_value};
ghost use Rattle.hash_challenger.specs.Holds.{IsFresh, make, held_value};
ghost use Rattle.hash_challenger.specs.Calls.{rule};
ghost use Rattle.hashers.specs.Choice.{digest_of};
ghost use Rattle.agreement.specs.Ends.{Agreed, AgreeIfPlayed, PlayedIfPlaces, slices, SlicesStay};

use crate::ends::play;
use crate::{Ends, Rehearsal};
use hash_challenger::HashChallenger;
use hasher::CryptographicHasher;
use hashers::Hasher;
use refusal::Refusal;
use runs::{Answer, Call};

/// Both ends as hash challengers, made from the same initial bytes and hash function.
pub fn hash_ends(
    initial: &[u8],
    hasher: Hasher,
) -> Result<Ends<HashChallenger<Hasher, 32>>, Refusal>
    ensures { MadeUnless (initial_no initial.now) (λ ends. IsFresh initial.now hasher ends.prover
        × IsFresh initial.now hasher ends.verifier) result }
{
    let prover = HashChallenger::new(initial, hasher)?;
    let verifier = HashChallenger::new(initial, hasher)?;
    Ok(Ends { prover, verifier })
}

/// Makes both ends and plays the calls on both: the prover's answers go into `proved`, the verifier's into `said`.
pub fn agree_hash(
    initial: &[u8],
    hasher: Hasher,
    calls: &[Call],
    proved: &mut [Answer],
    said: &mut [Answer],
) -> Result<Rehearsal<HashChallenger<Hasher, 32>>, Refusal>
    ensures agreed { MadeUnless (initial_no initial.now) (Agreed make held_value
        (λ h. rule (digest_of h)) (λ h. fresh_value initial.now) hasher calls.now
        (slices proved.old said.old) (slices proved.new said.new)) result }
    ensures kept { SlicesStay (slices proved.old said.old) (slices proved.new said.new) result }
{
    let mut ends = hash_ends(initial, hasher)?;
    let count = agree_hash_of_one_make(&mut ends.prover, &mut ends.verifier, calls, proved, said);
    Ok(Rehearsal { ends, count })
}

/// Plays the calls on two hash challengers.
pub fn agree_hash_of_one_make<
    H: CryptographicHasher<N>,
    I: CryptographicHasher<M>,
    const N: usize,
    const M: usize,
>(
    prover: &mut HashChallenger<H, N>,
    verifier: &mut HashChallenger<I, M>,
    calls: &[Call],
    proved: &mut [Answer],
    said: &mut [Answer],
) -> Option<usize>
    ensures agreement { SameDigests (H.digest (make prover.old))
        (I.digest (make verifier.old)) → held_value prover.old ≡ held_value verifier.old
        → AgreeIfPlayed (held_value prover.old) (held_value verifier.old) (held_value prover.new)
        (held_value verifier.new) calls.now (slices proved.new said.new) result }
    ensures played { PlayedIfPlaces (rule (H.digest (make prover.old)))
        (rule (I.digest (make verifier.old))) (held_value prover.old)
        (held_value verifier.old) (held_value prover.new) (held_value verifier.new) calls.now
        (slices proved.old said.old) (slices proved.new said.new) result }
    ensures makes { (make prover.new ≡ make prover.old)
        × (make verifier.new ≡ make verifier.old) }
{
    play(prover, verifier, calls, proved, said)
}
