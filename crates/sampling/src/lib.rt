//! Drawing values and bits: the low bits of one value, draws until a value is below a bound, and bits without bias.
#![tactic(auto)]

mod draws;
mod uniform;

pub use draws::{CanDraw, WORD_BITS, draw_below, draw_bits, is_draw_limit, low_bits, power};
pub use uniform::uniform_bits;
