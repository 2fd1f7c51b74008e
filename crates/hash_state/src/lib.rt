//! What a hash challenger keeps beside its hasher, and what its calls do to it.
#![tactic(auto)]

mod byte_list;
mod end_word;
mod held;
mod prepared_input;
mod state;

pub use byte_list::ByteList;
pub use held::HashHeld;
pub use prepared_input::PreparedInput;
pub use state::HashState;
