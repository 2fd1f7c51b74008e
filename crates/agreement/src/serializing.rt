// Serializing challengers, over a duplex challenger over bytes and over a hash challenger.
ghost use Rattle.std.specs.Prelude.{◌≡◌};
ghost use Rattle.refusal.specs.Made.{MadeUnless};
ghost use Rattle.domain.specs.Modular.{bytes};
ghost use Rattle.byte_transcript.specs.SameTranscript.{SameTranscript};
ghost use Rattle.sponge.specs.SpongeHeld.{shape_no, parameters_of, meaning_of_make};
ghost use Rattle.permutation.specs.Choice.{image as image_of};
ghost use Rattle.duplex_challenger.specs.Rules.{fresh_value as duplex_fresh};
ghost use Rattle.duplex_challenger.specs.Holds.{IsFresh as IsDuplexFresh, make as duplex_make};
ghost use Rattle.duplex_challenger.specs.Holds.{held_value as duplex_held};
ghost use Rattle.hash_state.specs.Rules.{initial_no, fresh_value as hash_fresh};
ghost use Rattle.hash_challenger.specs.Holds.{IsFresh as IsHashFresh, make as hash_make};
ghost use Rattle.hash_challenger.specs.Holds.{held_value as hash_held};
ghost use Rattle.serializing_challenger.specs.Rules.{order_no};
ghost use Rattle.hash_challenger.specs.Meaning.{hash_transcript};
ghost use Rattle.hashers.specs.Choice.{digest_of, hashing_of};
ghost use Rattle.duplex_challenger.specs.Bytes.{byte_transcript};
ghost use Rattle.serializing_challenger.specs.Calls.{rule};
ghost use Rattle.agreement.specs.Ends.{Agreed, AgreeIfPlayed, PlayedIfPlaces, or_above, slices};
ghost use Rattle.agreement.specs.Ends.{SlicesStay};

use crate::ends::play;
use crate::{Ends, Rehearsal, duplex_ends, hash_ends};
use byte_transcript::ByteGrindingChallenger;
use challenger_traits::Holding;
use domain::{BYTES_ORDER, Bytes, Domain};
use duplex_challenger::DuplexChallenger;
use hash_challenger::HashChallenger;
use hashers::Hasher;
use permutation::Permutation;
use refusal::Refusal;
use runs::{Answer, Call};
use serializing_challenger::SerializingChallenger32;

/// The duplex challenger over bytes.
pub type ByteDuplex = DuplexChallenger<Bytes, Permutation, BYTES_ORDER>;

/// Both ends as serializing challengers over duplex challengers over bytes, made from the same WIDTH, RATE and permutation.
pub fn serializing_duplex_ends<D: Domain<ORDER>, const ORDER: u64>(
    width: usize,
    rate: usize,
    permutation: Permutation,
) -> Result<Ends<SerializingChallenger32<D, ByteDuplex, ORDER>>, Refusal>
    ensures { MadeUnless (or_above (shape_no width rate) (order_no ORDER))
        (λ ends. IsDuplexFresh width rate permutation ends.prover.inner
        × IsDuplexFresh width rate permutation ends.verifier.inner) result }
{
    let below = duplex_ends::<Bytes, BYTES_ORDER>(width, rate, permutation)?;
    let prover = SerializingChallenger32::new(below.prover)?;
    let verifier = SerializingChallenger32::new(below.verifier)?;
    Ok(Ends { prover, verifier })
}

/// Makes both ends and plays the calls on both: the prover's answers go into `proved`, the verifier's into `said`.
pub fn agree_serializing_duplex<D: Domain<ORDER> + Copy, const ORDER: u64>(
    width: usize,
    rate: usize,
    permutation: Permutation,
    calls: &[Call],
    proved: &mut [Answer],
    said: &mut [Answer],
) -> Result<Rehearsal<SerializingChallenger32<D, ByteDuplex, ORDER>>, Refusal>
    ensures agreed { MadeUnless (or_above (shape_no width rate) (order_no ORDER))
        (Agreed (λ c. duplex_make c.inner) (λ c. duplex_held c.inner)
        (λ m. rule ORDER (byte_transcript (meaning_of_make bytes (image_of bytes) m)))
        (λ m. duplex_fresh (meaning_of_make bytes (image_of bytes) m))
        (parameters_of width rate permutation) calls.now (slices proved.old said.old)
        (slices proved.new said.new)) result }
    ensures kept { SlicesStay (slices proved.old said.old) (slices proved.new said.new) result }
{
    let mut ends = serializing_duplex_ends::<D, ORDER>(width, rate, permutation)?;
    let count = agree_serializing_of_one_make(
        &mut ends.prover,
        &mut ends.verifier,
        calls,
        proved,
        said,
    );
    Ok(Rehearsal { ends, count })
}

/// Both ends as serializing challengers over hash challengers, made from the same initial bytes and hash function.
pub fn serializing_hash_ends<D: Domain<ORDER>, const ORDER: u64>(
    initial: &[u8],
    hasher: Hasher,
) -> Result<Ends<SerializingChallenger32<D, HashChallenger<Hasher, 32>, ORDER>>, Refusal>
    ensures { MadeUnless (or_above (initial_no initial.now) (order_no ORDER))
        (λ ends. IsHashFresh initial.now hasher ends.prover.inner
        × IsHashFresh initial.now hasher ends.verifier.inner) result }
{
    let below = hash_ends(initial, hasher)?;
    let prover = SerializingChallenger32::new(below.prover)?;
    let verifier = SerializingChallenger32::new(below.verifier)?;
    Ok(Ends { prover, verifier })
}

/// Makes both ends and plays the calls on both: the prover's answers go into `proved`, the verifier's into `said`.
pub fn agree_serializing_hash<D: Domain<ORDER> + Copy, const ORDER: u64>(
    initial: &[u8],
    hasher: Hasher,
    calls: &[Call],
    proved: &mut [Answer],
    said: &mut [Answer],
) -> Result<Rehearsal<SerializingChallenger32<D, HashChallenger<Hasher, 32>, ORDER>>, Refusal>
    ensures agreed { MadeUnless (or_above (initial_no initial.now) (order_no ORDER))
        (Agreed (λ c. hash_make c.inner) (λ c. hash_held c.inner)
        (λ h. rule ORDER (hash_transcript (digest_of h) (hashing_of h)))
        (λ h. hash_fresh initial.now) hasher calls.now (slices proved.old said.old)
        (slices proved.new said.new)) result }
    ensures kept { SlicesStay (slices proved.old said.old) (slices proved.new said.new) result }
{
    let mut ends = serializing_hash_ends::<D, ORDER>(initial, hasher)?;
    let count = agree_serializing_of_one_make(
        &mut ends.prover,
        &mut ends.verifier,
        calls,
        proved,
        said,
    );
    Ok(Rehearsal { ends, count })
}

/// Plays the calls on two serializing challengers, over any transcripts.
pub fn agree_serializing_of_one_make<
    D: Domain<ORDER> + Copy,
    T: ByteGrindingChallenger + Copy,
    E: Domain<ORDER> + Copy,
    U: ByteGrindingChallenger + Holding<Held = T::Held> + Copy,
    const ORDER: u64,
>(
    prover: &mut SerializingChallenger32<D, T, ORDER>,
    verifier: &mut SerializingChallenger32<E, U, ORDER>,
    calls: &[Call],
    proved: &mut [Answer],
    said: &mut [Answer],
) -> Option<usize>
    ensures agreement { SameTranscript (T.meaning (T.make prover.old.inner))
        (U.meaning (U.make verifier.old.inner))
        → T.held_value prover.old.inner ≡ U.held_value verifier.old.inner
        → AgreeIfPlayed (T.held_value prover.old.inner) (U.held_value verifier.old.inner)
        (T.held_value prover.new.inner) (U.held_value verifier.new.inner) calls.now
        (slices proved.new said.new) result }
    ensures played { PlayedIfPlaces (rule ORDER (T.meaning (T.make prover.old.inner)))
        (rule ORDER (U.meaning (U.make verifier.old.inner)))
        (T.held_value prover.old.inner) (U.held_value verifier.old.inner)
        (T.held_value prover.new.inner) (U.held_value verifier.new.inner) calls.now
        (slices proved.old said.old) (slices proved.new said.new) result }
    ensures makes { (T.make prover.new.inner ≡ T.make prover.old.inner)
        × (U.make verifier.new.inner ≡ U.make verifier.old.inner) }
{
    play(prover, verifier, calls, proved, said)
}
