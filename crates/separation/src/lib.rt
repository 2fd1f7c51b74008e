//! Two sponges side by side, or two challengers: unlike blocks lead to unlike rows.
#![tactic(auto)]

mod block;
mod duplex;
mod multi_field;
mod turns;

pub use block::Block;
pub use duplex::observe_both_duplex;
pub use multi_field::observe_both_multi_field;
pub use turns::turn_both;
