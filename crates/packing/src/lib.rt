//! Packing scalars into words, and splitting words into scalars.
#![tactic(auto)]

ghost use Rattle.std.specs.Prelude.{◌≡◌, ◌^◌, ◌<◌, ◌≤◌};
ghost use Rattle.refusal.specs.declared.limits.TheConstants.{GREATEST_SAMPLED_ORDER};
ghost use Rattle.code_bits.specs.CodeBits.{code_bits};
ghost use Rattle.packing.specs.Powers.{limbs as limbs_of, digits as digit_count};

use refusal::limits::{GREATEST_SAMPLED_ORDER, WIDEST_ROW};

mod packing;
mod pair;
mod powers;
mod splitting;

pub use powers::{greatest_power, limbs, radix};
pub use splitting::push_digits;

/// The most scalars that a word gives: 256^8 is above every order.
pub const MOST_DIGITS: usize = 7;

/// The most scalars that the outputs of a sponge are split into.
pub const LONGEST_SQUEEZE_LIST: usize = WIDEST_ROW * MOST_DIGITS;

/// The numbers of a pair of domains: the radix, how many scalars a word takes, and how many it gives.
#[derive(Clone, Copy)]
pub struct RadixPacking<const SAMPLED: u64, const ORDER: u64> {
    radix: u64,
    limbs: usize,
    digits: usize,
    ghost low: { 2 ≤ SAMPLED },
    ghost small: { SAMPLED ≤ GREATEST_SAMPLED_ORDER },
    ghost less: { SAMPLED < ORDER },
    ghost radixed: { radix ≡ 2 ^ code_bits SAMPLED },
    ghost sized: { limbs ≡ limbs_of SAMPLED ORDER },
    ghost split: { digits ≡ digit_count SAMPLED ORDER },
}
