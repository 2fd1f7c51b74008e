// The search by a prepared check.
ghost use Rattle.std.specs.Prelude.{◌≡◌, ◌%◌, ◌^◌, ◌<◌, true, Ok, IfOk, ◌==◌};
ghost use Rattle.challenger_traits.specs.Meaning.{Does, reply};
ghost use Rattle.challenger_traits.specs.Grinding.{at_make, check_of, grind_of, LeastWitness};

use crate::CanPrepareCheck;
use challenger_traits::{bits_fit, check_by_parts};
use refusal::Refusal;
use sampling::{WORD_BITS, low_bits};

/// The one test of a candidate: are the low bits of what is drawn 0?
fn passes<C: CanPrepareCheck>(c: &C, prepared: &C::Prepared, bits: u64, witness: u64) -> bool
    requires few { bits < WORD_BITS }
    requires code { witness < (C.drawing (C.make c.now)).order }
    ensures { result ≡ (C.drawn_value (C.make c.now) prepared.now witness % 2 ^ bits == 0) }
{
    low_bits(c.drawn_value(prepared, witness), bits) == 0
}

// `grind_by_trial` needs nothing prepared, but copies the challenger for each candidate.
/// The search by a prepared check of the challenger: the check itself is made of the witness alone.
#[tactic(auto, unfolding(challenger_traits::specs::Grinding::grind_of, challenger_traits::specs::Grinding::check_of))]
pub fn grind_prepared<C: CanPrepareCheck + Copy>(
    c: &mut C,
    bits: u64,
    budget: u64,
) -> Result<(u64, u64), Refusal>
    ensures does { Does C.make C.held_value c.old c.new result
        (grind_of (at_make C.after_observe C.drawing C.check_start (C.make c.old))
        (C.held_value c.old) bits budget) }
    ensures passes { IfOk result (λ ground. check_of
        (at_make C.after_observe C.drawing C.check_start (C.make c.old)) (C.held_value c.old) bits
        ground.0 ≡ reply (Ok true) (C.held_value c.new)) }
    ensures least { LeastWitness (at_make C.after_observe C.drawing C.check_start (C.make c.old))
        (C.held_value c.old) bits budget (record { said = result; left = C.held_value c.new }) }
{
    let order = c.order();
    if !bits_fit(order, bits) {
        return Err(Refusal::Bits);
    }
    if bits == 0 {
        return Ok((0, 0));
    }
    if budget > order {
        return Err(Refusal::Budget);
    }
    let prepared = c.prepare_check();
    for w in 0..budget {
        if passes(c, &prepared, bits, w) {
            let _ = check_by_parts(c, bits, w);
            return Ok((w, w + 1));
        }
    }
    Err(Refusal::NoWitness(budget))
}
