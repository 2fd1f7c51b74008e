// Check and grind, as any challenger can do them.
ghost use Rattle.std.specs.Prelude.{◌≡◌, ℕ, Bool, true, List, Ok, IfOk, IfErr};
ghost use Rattle.challenger_traits.specs.Meaning.{Does, reply, bits_fit};
ghost use Rattle.challenger_traits.specs.Grinding.{at_make, check_of, grind_of, LeastWitness};
ghost use Rattle.challenger_traits.specs.Grinding.{CheckRefused};

use crate::{CanObserve, CanSampleBits, CanStartCheck};
use refusal::Refusal;
use refusal::limits::BITS_LIMIT;

/// Do so many bits fit a number, and 2^bits lie below the order?
pub fn bits_fit(order: u64, bits: u64) -> bool
    ensures { result ≡ bits_fit order bits }
{
    bits < BITS_LIMIT && 1 << bits < order
}

/// A check from its parts: the start, the observed witness, the drawn bits.
#[tactic(auto, unfolding(crate::specs::Grinding::check_of))]
pub fn check_by_parts<C: CanObserve<u64> + CanSampleBits + CanStartCheck + Copy>(
    c: &mut C,
    bits: u64,
    witness: u64,
) -> Result<bool, Refusal>
    ensures does { Does C.make C.held_value c.old c.new result
        (check_of (at_make C.after_observe C.drawing C.check_start (C.make c.old))
        (C.held_value c.old) bits witness) }
    ensures refusals { IfErr result
        (CheckRefused (C.drawing (C.make c.old)).order bits witness) }
{
    let order = c.order();
    if !bits_fit(order, bits) {
        return Err(Refusal::Bits);
    }
    if bits == 0 {
        return Ok(true);
    }
    if witness >= order {
        return Err(Refusal::NotCode);
    }
    let mut trial = *c;
    trial.start_check();
    trial.observe(&[witness])?;
    let drawn = trial.sample_bits(bits)?;
    *c = trial;
    Ok(drawn == 0)
}

/// The search that any challenger may use: each candidate is checked on a copy.
#[tactic(auto, unfolding(crate::specs::Grinding::grind_of, crate::specs::Grinding::check_of))]
pub fn grind_by_trial<C: CanObserve<u64> + CanSampleBits + CanStartCheck + Copy>(
    c: &mut C,
    bits: u64,
    budget: u64,
) -> Result<(u64, u64), Refusal>
    ensures does { Does C.make C.held_value c.old c.new result
        (grind_of (at_make C.after_observe C.drawing C.check_start (C.make c.old))
        (C.held_value c.old) bits budget) }
    ensures passes { IfOk result (λ ground. check_of
        (at_make C.after_observe C.drawing C.check_start (C.make c.old)) (C.held_value c.old) bits
        ground.0 ≡ reply (Ok true) (C.held_value c.new)) }
    ensures least { LeastWitness (at_make C.after_observe C.drawing C.check_start (C.make c.old))
        (C.held_value c.old) bits budget (record { said = result; left = C.held_value c.new }) }
{
    let order = c.order();
    if !bits_fit(order, bits) {
        return Err(Refusal::Bits);
    }
    if bits == 0 {
        return Ok((0, 0));
    }
    if budget > order {
        return Err(Refusal::Budget);
    }
    for w in 0..budget {
        let mut trial = *c;
        if check_by_parts(&mut trial, bits, w).unwrap_or(false) {
            *c = trial;
            return Ok((w, w + 1));
        }
    }
    Err(Refusal::NoWitness(budget))
}
