//! The blocks of a multi-field challenger, of scalars and of words, and its outputs split into scalars.
#![tactic(auto)]

mod absorbing;
mod squeezing;

pub use absorbing::{absorb_group, absorb_words, flush};
pub use squeezing::{ensure_outputs, split_all};
