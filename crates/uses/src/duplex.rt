// A duplex challenger over BabyBear.
ghost use Rattle.std.specs.Prelude.{IsOk, IfOk};
ghost use Rattle.challengers.specs.Meaning.{Does};
ghost use Rattle.challengers.specs.DuplexHolds.{make, held_value, make_meaning, IsFresh};
ghost use Rattle.challengers.specs.DuplexRules.{after_observe, sample_of};
ghost use Rattle.uses.specs.Challenges.{two_samples, answered, challenges};

use crate::field_challenges;
use challengers::{BabyBearDuplex, Ladder, Refusal};

/// A fresh challenger of 16 cells, of which the first 8 are the rate.
pub fn fresh_duplex(ladder: Ladder) -> Result<BabyBearDuplex<Ladder>, Refusal>
    ensures made { IsOk result }
    ensures fresh { IfOk result (IsFresh 16 8 ladder) }
{
    BabyBearDuplex::<Ladder>::new(16, 8, ladder)
}

/// Observes a digest and numbers, and draws two challenges, as any challenger of a field does.
pub fn duplex_challenges(
    c: &mut BabyBearDuplex<Ladder>,
    digest: &[u64],
    numbers: &[u64],
) -> Result<[u64; 2], Refusal>
    ensures does { Does make held_value c.old c.new result (challenges
        (after_observe (make_meaning c.old)) (after_observe (make_meaning c.old))
        (λ h. answered (two_samples (sample_of (make_meaning c.old)) h))
        (held_value c.old) digest.now numbers.now) }
{
    field_challenges(c, digest, numbers, ())
}
