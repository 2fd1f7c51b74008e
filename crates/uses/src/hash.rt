// A hash challenger.
ghost use Rattle.std.specs.Prelude.{◌≤◌, length, IsOk, IfOk};
ghost use Rattle.challengers.specs.Made.{MadeUnless};
ghost use Rattle.challengers.specs.Meaning.{Does};
ghost use Rattle.challengers.specs.HasherChoice.{digest_of};
ghost use Rattle.challengers.specs.HashHolds.{make, held_value, IsFresh};
ghost use Rattle.challengers.specs.HashRules.{initial_no, after_observe, sample_of};
ghost use Rattle.uses.specs.Challenges.{two_samples, answered, challenges};

use challengers::{ByteHash, CanObserve, CanObserveDigest, Hasher, Refusal};

/// A fresh challenger over SHA-256, which begins with these bytes.
pub fn fresh_hash(initial: &[u8]) -> Result<ByteHash, Refusal>
    ensures { MadeUnless (initial_no initial.now) (IsFresh initial.now Hasher.Sha256) result }
{
    ByteHash::new(initial, Hasher::Sha256)
}

/// Observes a digest and bytes, and draws two bytes.
pub fn hash_challenges(c: &mut ByteHash, digest: &[u8], bytes: &[u8]) -> Result<[u8; 2], Refusal>
    ensures does { Does make held_value c.old c.new result (challenges after_observe after_observe
        (λ h. answered (two_samples (sample_of (digest_of (make c.old))) h))
        (held_value c.old) digest.now bytes.now) }
{
    c.observe_digest(digest)?;
    c.observe(bytes)?;
    Ok([c.sample(), c.sample()])
}
