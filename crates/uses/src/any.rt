// Written once, for any challenger that samples in a field.
ghost use Rattle.challengers.specs.Meaning.{Does};
ghost use Rattle.uses.specs.Challenges.{two_samples_if_any, challenges};

use challengers::{CanObserveDigest, FieldChallenger, Refusal};

/// Observes a digest, of codes, words or bytes, and numbers, and draws two challenges, each given the same: nothing, or a draw limit.
pub fn field_challenges<T, C: FieldChallenger + CanObserveDigest<T>>(
    c: &mut C,
    digest: &[T],
    numbers: &[u64],
    given: C::Given,
) -> Result<[u64; 2], Refusal>
    ensures does { Does C.make C.held_value c.old c.new result (challenges
        (C.after_observe_digest (C.make c.old)) (C.after_observe (C.make c.old))
        (two_samples_if_any (λ h. C.sample_of (C.make c.old) h given)) (C.held_value c.old)
        digest.now numbers.now) }
{
    c.observe_digest(digest)?;
    c.observe(numbers)?;
    Ok([c.sample(given)?, c.sample(given)?])
}
