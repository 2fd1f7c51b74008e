// A multi-field challenger: BabyBear over a sponge of Goldilocks.
ghost use Rattle.std.specs.Prelude.{IsOk, IfOk};
ghost use Rattle.challengers.specs.Meaning.{Does};
ghost use Rattle.challengers.specs.Orders.{BABY_BEAR_ORDER};
ghost use Rattle.challengers.specs.MultiFieldHolds.{make, held_value, make_meaning, IsFresh};
ghost use Rattle.challengers.specs.MultiFieldRules.{after_observe, after_observe_digest};
ghost use Rattle.challengers.specs.MultiFieldRules.{sample_of};
ghost use Rattle.uses.specs.Challenges.{two_samples, answered, challenges};

use challengers::{BabyBearInGoldilocks, CanObserve, CanObserveDigest, Ladder, Refusal};

/// A fresh challenger of 8 cells, of which the first 4 are the rate.
#[tactic(auto, using(crate::proofs::Usual::no_question_failed))]
pub fn fresh_multi_field(ladder: Ladder) -> Result<BabyBearInGoldilocks<Ladder>, Refusal>
    ensures made { IsOk result }
    ensures fresh { IfOk result (IsFresh 8 4 ladder) }
{
    BabyBearInGoldilocks::<Ladder>::new(8, 4, ladder)
}

/// Draws two challenges.
pub fn multi_field_draws(c: &mut BabyBearInGoldilocks<Ladder>) -> [u64; 2]
    ensures does { Does make held_value c.old c.new result
        (two_samples (sample_of BABY_BEAR_ORDER (make_meaning c.old)) (held_value c.old)) }
{
    [c.sample(), c.sample()]
}

/// Observes a digest, of words of Goldilocks, and numbers, and draws two challenges.
pub fn multi_field_challenges(
    c: &mut BabyBearInGoldilocks<Ladder>,
    digest: &[u64],
    numbers: &[u64],
) -> Result<[u64; 2], Refusal>
    ensures does { Does make held_value c.old c.new result (challenges
        (after_observe_digest BABY_BEAR_ORDER (make_meaning c.old))
        (after_observe BABY_BEAR_ORDER (make_meaning c.old))
        (λ h. answered (two_samples (sample_of BABY_BEAR_ORDER (make_meaning c.old)) h))
        (held_value c.old) digest.now numbers.now) }
{
    c.observe_digest(digest)?;
    c.observe(numbers)?;
    Ok(multi_field_draws(c))
}
