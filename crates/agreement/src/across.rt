// Ends of different Rust types: one meaning is enough.
ghost use Rattle.std.specs.Prelude.{reverse};
ghost use Rattle.refusal.specs.Made.{MadeUnless};
ghost use Rattle.sha256.specs.Sha256.{sha256};
ghost use Rattle.sponge.specs.SpongeHeld.{shape_no};
ghost use Rattle.duplex_challenger.specs.Rules.{fresh_value as duplex_fresh};
ghost use Rattle.duplex_challenger.specs.Holds.{make_meaning, held_value as duplex_held};
ghost use Rattle.duplex_challenger.specs.Calls.{rule as duplex_rule};
ghost use Rattle.hash_state.specs.Rules.{initial_no, fresh_value as hash_fresh};
ghost use Rattle.hash_challenger.specs.Holds.{make as hash_make, held_value as hash_held};
ghost use Rattle.hash_challenger.specs.Calls.{rule as hash_rule};
ghost use Rattle.hashers.specs.Choice.{digest_of};
ghost use Rattle.domain.specs.Modular.{bytes};
ghost use Rattle.duplex_challenger.specs.Bytes.{byte_transcript};
ghost use Rattle.serializing_challenger.specs.Rules.{order_no};
ghost use Rattle.serializing_challenger.specs.Calls.{rule as serializing_rule};
ghost use Rattle.agreement.specs.Ends.{AgreedAcross, or_above, slices, SlicesStay, sponge_make};

use crate::{
    ByteDuplex, agree_duplex_of_one_make, agree_hash_of_one_make, agree_serializing_of_one_make,
};
use domain::{BYTES_ORDER, Bytes, Domain};
use duplex_challenger::DuplexChallenger;
use hash_challenger::HashChallenger;
use hasher::CryptographicHasher;
use hashers::Hasher;
use permutation::{Mirror, Permutation};
use refusal::Refusal;
use runs::{Answer, Call};
use serializing_challenger::SerializingChallenger32;
use sha256::Sha256;

/// A prover's and a verifier's challenger, perhaps of two types, after calls were played on them, and how many answers the verifier got, as in `Rehearsal`.
#[derive(Clone, Copy)]
pub struct Across<P, V> {
    pub prover: P,
    pub verifier: V,
    pub count: Option<usize>,
}

/// A prover over the Mirror itself, and a verifier over the Mirror as one of the permutations.
pub fn agree_across_permutations<D: Domain<ORDER> + Copy, const ORDER: u64>(
    width: usize,
    rate: usize,
    calls: &[Call],
    proved: &mut [Answer],
    said: &mut [Answer],
) -> Result<
    Across<DuplexChallenger<D, Mirror, ORDER>, DuplexChallenger<D, Permutation, ORDER>>,
    Refusal,
>
    ensures agreed { MadeUnless (shape_no width rate) (AgreedAcross make_meaning make_meaning
        duplex_held duplex_held duplex_rule duplex_fresh
        (sponge_make D.arithmetic reverse width rate) calls.now (slices proved.old said.old)
        (slices proved.new said.new)) result }
    ensures kept { SlicesStay (slices proved.old said.old) (slices proved.new said.new) result }
{
    let mut prover: DuplexChallenger<D, Mirror, ORDER> = DuplexChallenger::new(
        width, rate, Mirror,
    )?;
    let mut verifier: DuplexChallenger<D, Permutation, ORDER> = DuplexChallenger::new(
        width,
        rate,
        Permutation::Mirror(Mirror),
    )?;
    let count = agree_duplex_of_one_make(&mut prover, &mut verifier, calls, proved, said);
    Ok(Across {
        prover,
        verifier,
        count,
    })
}

/// A prover over SHA-256 itself, and a verifier over SHA-256 as one of the hash functions.
pub fn agree_across_hashers(
    initial: &[u8],
    calls: &[Call],
    proved: &mut [Answer],
    said: &mut [Answer],
) -> Result<Across<HashChallenger<Sha256, 32>, HashChallenger<Hasher, 32>>, Refusal>
    ensures agreed { MadeUnless (initial_no initial.now) (AgreedAcross
        (λ c. ⟦<Sha256 as CryptographicHasher<32>>⟧.digest (hash_make c))
        (λ c. digest_of (hash_make c)) hash_held hash_held hash_rule
        (λ digest. hash_fresh initial.now) sha256 calls.now (slices proved.old said.old)
        (slices proved.new said.new)) result }
    ensures kept { SlicesStay (slices proved.old said.old) (slices proved.new said.new) result }
{
    let mut prover: HashChallenger<Sha256, 32> = HashChallenger::new(initial, Sha256)?;
    let mut verifier: HashChallenger<Hasher, 32> = HashChallenger::new(initial, Hasher::Sha256)?;
    let count = agree_hash_of_one_make(&mut prover, &mut verifier, calls, proved, said);
    Ok(Across {
        prover,
        verifier,
        count,
    })
}

/// The duplex challenger over bytes under the Mirror itself.
pub type ByteMirror = DuplexChallenger<Bytes, Mirror, BYTES_ORDER>;

/// A prover over a byte duplex under the Mirror itself, and a verifier over one under the Mirror as one of the permutations.
pub fn agree_across_transcripts<D: Domain<ORDER> + Copy, const ORDER: u64>(
    width: usize,
    rate: usize,
    calls: &[Call],
    proved: &mut [Answer],
    said: &mut [Answer],
) -> Result<
    Across<
        SerializingChallenger32<D, ByteMirror, ORDER>,
        SerializingChallenger32<D, ByteDuplex, ORDER>,
    >,
    Refusal,
>
    ensures agreed { MadeUnless (or_above (shape_no width rate) (order_no ORDER)) (AgreedAcross
        (λ c. make_meaning c.inner) (λ c. make_meaning c.inner) (λ c. duplex_held c.inner)
        (λ c. duplex_held c.inner) (λ k. serializing_rule ORDER (byte_transcript k)) duplex_fresh
        (sponge_make bytes reverse width rate) calls.now (slices proved.old said.old)
        (slices proved.new said.new)) result }
    ensures kept { SlicesStay (slices proved.old said.old) (slices proved.new said.new) result }
{
    let below: ByteMirror = DuplexChallenger::new(width, rate, Mirror)?;
    let other_below: ByteDuplex = DuplexChallenger::new(width, rate, Permutation::Mirror(Mirror))?;
    let mut prover: SerializingChallenger32<D, ByteMirror, ORDER> = SerializingChallenger32::new(
        below,
    )?;
    let mut verifier: SerializingChallenger32<D, ByteDuplex, ORDER> = SerializingChallenger32::new(
        other_below,
    )?;
    let count = agree_serializing_of_one_make(&mut prover, &mut verifier, calls, proved, said);
    Ok(Across {
        prover,
        verifier,
        count,
    })
}
