// A serializing challenger: codes of BabyBear over a hash challenger.
ghost use Rattle.challengers.specs.Made.{MadeUnless};
ghost use Rattle.challengers.specs.Meaning.{Does};
ghost use Rattle.challengers.specs.Orders.{BABY_BEAR_ORDER};
ghost use Rattle.challengers.specs.HashHolds.{make, held_value, IsFresh};
ghost use Rattle.challengers.specs.HashRules.{initial_no};
ghost use Rattle.challengers.specs.Usual.{hash_bytes};
ghost use Rattle.challengers.specs.Transcript.{after_observe_bytes};
ghost use Rattle.challengers.specs.SerializingRules.{after_observe, sample_of};
ghost use Rattle.uses.specs.Challenges.{two_samples_if_any, challenges};

use crate::field_challenges;
use challengers::{BabyBearHash, ByteHash, Hasher, Refusal};

/// A fresh challenger over SHA-256, which begins with these bytes.
pub fn fresh_serializing(initial: &[u8]) -> Result<BabyBearHash, Refusal>
    ensures { MadeUnless (initial_no initial.now) (λ c. IsFresh initial.now Hasher.Sha256 c.inner)
        result }
{
    BabyBearHash::new(ByteHash::new(initial, Hasher::Sha256)?)
}

/// Observes a digest of bytes and numbers, and draws two challenges, each within the draw limit, as any challenger of a field does.
pub fn serializing_challenges(
    c: &mut BabyBearHash,
    digest: &[u8],
    numbers: &[u64],
    limit: u64,
) -> Result<[u64; 2], Refusal>
    ensures does { Does (λ s. make s.inner) (λ s. held_value s.inner) c.old c.new result (challenges
        (after_observe_bytes (hash_bytes (make c.old.inner)))
        (after_observe BABY_BEAR_ORDER (hash_bytes (make c.old.inner)))
        (two_samples_if_any (λ h. sample_of BABY_BEAR_ORDER (hash_bytes (make c.old.inner)) h
        limit)) (held_value c.old.inner) digest.now numbers.now) }
{
    field_challenges(c, digest, numbers, limit)
}
