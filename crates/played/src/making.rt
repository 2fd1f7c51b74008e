// Challengers made as a line asks: the prover's and the verifier's, each by a call of its own.
ghost use Rattle.std.specs.Prelude.{◌≡◌};
ghost use Rattle.refusal.specs.Made.{MadeUnless};
ghost use Rattle.domain.specs.Modular.{bytes};
ghost use Rattle.sponge.specs.SpongeHeld.{meaning_of_make};
ghost use Rattle.permutation.specs.Choice.{image as image_of};
ghost use Rattle.duplex_challenger.specs.Holds.{held_value as duplex_held, make as duplex_make};
ghost use Rattle.duplex_challenger.specs.Holds.{make_meaning as duplex_making};
ghost use Rattle.duplex_challenger.specs.Rules.{fresh_value as duplex_fresh};
ghost use Rattle.multi_field_challenger.specs.Holds.{held_value as multi_held, make as multi_make};
ghost use Rattle.multi_field_challenger.specs.Holds.{make_meaning as multi_making};
ghost use Rattle.multi_field_challenger.specs.Rules.{fresh_value as multi_fresh};
ghost use Rattle.hash_challenger.specs.Holds.{held_value as hash_held, make as hash_make};
ghost use Rattle.hash_state.specs.Rules.{initial_no, fresh_value as hash_fresh};
ghost use Rattle.agreement.specs.Ends.{AreAlike, or_above};
ghost use Rattle.serializing_challenger.specs.Rules.{order_no};
ghost use Rattle.played.specs.Hashers.{named_hasher};
ghost use Rattle.played.specs.Makes.{asked_sponge, duplex_no, multi_no};

use crate::{named_hasher, named_permutation};
use agreement::{
    ByteDuplex, Ends, duplex_ends, hash_ends, multi_field_ends, serializing_duplex_ends,
    serializing_hash_ends,
};
use domain::Domain;
use duplex_challenger::DuplexChallenger;
use hash_challenger::HashChallenger;
use hashers::Hasher;
use multi_field_challenger::MultiField32Challenger;
use permutation::Permutation;
use refusal::Refusal;
use script::{HasherName, SpongeParameters};
use serializing_challenger::SerializingChallenger32;

/// The hash challenger over a hash function that a line names.
pub type NamedHash = HashChallenger<Hasher, 32>;

/// Duplex challengers over a domain; their permutation is made before them.
pub fn make_duplex<D: Domain<ORDER>, const ORDER: u64>(
    asked: &SpongeParameters,
) -> Result<Ends<DuplexChallenger<D, Permutation, ORDER>>, Refusal>
    ensures { MadeUnless (duplex_no asked.now) (λ ends. AreAlike duplex_make duplex_held ends
        × (duplex_making ends.prover ≡ asked_sponge D.arithmetic asked.now)
        × (duplex_held ends.prover ≡ duplex_fresh (asked_sponge D.arithmetic asked.now))) result }
{
    let permutation = named_permutation(asked.permutation)?;
    duplex_ends::<D, ORDER>(asked.width as usize, asked.rate as usize, permutation)
}

/// Multi-field challengers over a sampled domain and a sponge's; their permutation is made before them.
pub fn make_multi<F: Domain<SAMPLED>, D: Domain<ORDER>, const SAMPLED: u64, const ORDER: u64>(
    asked: &SpongeParameters,
) -> Result<Ends<MultiField32Challenger<F, D, Permutation, SAMPLED, ORDER>>, Refusal>
    ensures { MadeUnless (multi_no SAMPLED ORDER asked.now)
        (λ ends. AreAlike multi_make multi_held ends
        × (multi_making ends.prover ≡ asked_sponge D.arithmetic asked.now)
        × (multi_held ends.prover ≡ multi_fresh SAMPLED (asked_sponge D.arithmetic asked.now)))
        result }
{
    let permutation = named_permutation(asked.permutation)?;
    multi_field_ends::<F, D, SAMPLED, ORDER>(asked.width as usize, asked.rate as usize, permutation)
}

/// Serializing challengers over duplex challengers over bytes, which are made before them.
pub fn make_serial_duplex<D: Domain<ORDER>, const ORDER: u64>(
    asked: &SpongeParameters,
) -> Result<Ends<SerializingChallenger32<D, ByteDuplex, ORDER>>, Refusal>
    ensures { MadeUnless (or_above (duplex_no asked.now) (order_no ORDER))
        (λ ends. AreAlike (λ c. duplex_make c.inner) (λ c. duplex_held c.inner) ends
        × (duplex_making ends.prover.inner ≡ asked_sponge bytes asked.now)
        × (duplex_held ends.prover.inner ≡ duplex_fresh (asked_sponge bytes asked.now))) result }
{
    let permutation = named_permutation(asked.permutation)?;
    serializing_duplex_ends::<D, ORDER>(asked.width as usize, asked.rate as usize, permutation)
}

/// Hash challengers.
pub fn make_hash(hasher: HasherName, initial: &[u8]) -> Result<Ends<NamedHash>, Refusal>
    ensures { MadeUnless (initial_no initial.now) (λ ends. AreAlike hash_make hash_held ends
        × (hash_make ends.prover ≡ named_hasher hasher)
        × (hash_held ends.prover ≡ hash_fresh initial.now)) result }
{
    hash_ends(initial, named_hasher(hasher))
}

/// Serializing challengers over hash challengers, which are made before them.
pub fn make_serial_hash<D: Domain<ORDER>, const ORDER: u64>(
    hasher: HasherName,
    initial: &[u8],
) -> Result<Ends<SerializingChallenger32<D, NamedHash, ORDER>>, Refusal>
    ensures { MadeUnless (or_above (initial_no initial.now) (order_no ORDER))
        (λ ends. AreAlike (λ c. hash_make c.inner) (λ c. hash_held c.inner) ends
        × (hash_make ends.prover.inner ≡ named_hasher hasher)
        × (hash_held ends.prover.inner ≡ hash_fresh initial.now)) result }
{
    serializing_hash_ends::<D, ORDER>(initial, named_hasher(hasher))
}
