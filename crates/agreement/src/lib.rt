//! Both ends of a transcript: made from the same numbers, with nothing asked, or taken as two challengers of one make; calls are played on both, and the two agree.
#![tactic(auto)]

mod across;
mod duplex;
mod ends;
mod hash;
mod multi_field;
mod serializing;

pub use across::{
    Across, ByteMirror, agree_across_hashers, agree_across_permutations, agree_across_transcripts,
};
pub use duplex::{agree_duplex, agree_duplex_of_one_make, duplex_ends};
pub use ends::{Ends, Rehearsal};
pub use hash::{agree_hash, agree_hash_of_one_make, hash_ends};
pub use multi_field::{agree_multi_field, agree_multi_field_of_one_make, multi_field_ends};
pub use serializing::{
    ByteDuplex, agree_serializing_duplex, agree_serializing_hash, agree_serializing_of_one_make,
    serializing_duplex_ends, serializing_hash_ends,
};
