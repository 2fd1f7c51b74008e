//! How the challengers are used: small callers, each with a contract of its own that rests on theirs.
#![tactic(auto)]

mod agreeing;
mod any;
mod apart;
mod duplex;
mod hash;
mod multi_field;
mod places;
mod rows;
mod serializing;
mod shortest;
mod witness;

pub use agreeing::{play_both, play_both_under_ladder};
pub use any::field_challenges;
pub use apart::{Pair, give_both_duplex, give_both_multi_field, turn_both_sponges};
pub use duplex::{duplex_challenges, fresh_duplex};
pub use hash::{fresh_hash, hash_challenges};
pub use multi_field::{fresh_multi_field, multi_field_challenges, multi_field_draws};
pub use places::{drawn_place, sampled_code};
pub use rows::{Session, prove_row, rehearse_row, rehearse_row_over_hash, verify_row};
pub use serializing::{fresh_serializing, serializing_challenges};
pub use shortest::first_challenge;
pub use witness::{prove, prove_and_verify, verify};
