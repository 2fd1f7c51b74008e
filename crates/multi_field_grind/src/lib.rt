//! A multi-field check with all but its witness worked out: the witness is one scalar of one word, and one digit of one word is drawn.
#![tactic(auto)]

ghost use Rattle.std.specs.Prelude.{◌≡◌, ℕ, ◌+◌, ◌*◌, ◌<◌, ◌≤◌};

use prepared_grind::PreparedBlock;

mod check;
mod digit;
mod weight;

/// A block whose last word lacks the witness: what the scalars before it pack to there, what a witness of 1 weighs, and how many digits a word gives.
#[derive(Clone, Copy)]
pub struct PreparedScalar<const SAMPLED: u64, const ORDER: u64> {
    block: PreparedBlock<ORDER>,
    rest: u64,
    weight: u64,
    digits: usize,
    ghost low: { 2 ≤ SAMPLED },
    ghost codes: { (w : ℕ) → w < SAMPLED → rest + w * weight < ORDER },
    ghost some: { 1 ≤ digits },
}
