//! The lines of a script, and the prover's and the verifier's run of them side by side.
#![tactic(auto)]

pub mod lines;
mod sides;
mod turns;

pub use sides::Table;
