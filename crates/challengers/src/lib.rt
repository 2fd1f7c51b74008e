//! All that a caller of the challengers names, in one crate.
#![tactic(auto)]

mod usual;

pub use agreement::{
    Across, ByteDuplex, ByteMirror, Ends, Rehearsal, agree_across_hashers,
    agree_across_permutations, agree_across_transcripts, agree_duplex, agree_duplex_of_one_make,
    agree_hash, agree_hash_of_one_make, agree_multi_field, agree_multi_field_of_one_make,
    agree_serializing_duplex, agree_serializing_hash, agree_serializing_of_one_make, duplex_ends,
    hash_ends, multi_field_ends, serializing_duplex_ends, serializing_hash_ends,
};
pub use buffer::Buffer;
pub use byte_transcript::{ByteGrindingChallenger, ByteTranscript, CanFinalizeTranscript};
pub use challenger_traits::{
    CanFinalizeDigest, CanObserve, CanObserveDigest, CanSample, CanSampleBits,
    CanSampleUniformBits, CanStartCheck, FieldChallenger, GrindingChallenger, Holding,
};
pub use domain::{
    BABY_BEAR_ORDER, BYTES_ORDER, BabyBear, Bytes, Domain, GOLDILOCKS_ORDER, Goldilocks,
    KOALA_BEAR_ORDER, KoalaBear,
};
pub use duplex_challenger::{ByteDomain, DuplexChallenger, DuplexHeld};
pub use hash_challenger::HashChallenger;
pub use hash_state::HashHeld;
pub use hasher::CryptographicHasher;
pub use hashers::Hasher;
pub use multi_field_challenger::{MultiField32Challenger, MultiHeld};
pub use permutation::{CryptographicPermutation, Ladder, Mirror, Permutation};
pub use refusal::{Refusal, limits};
pub use runs::{
    Answer, Call, CanTakeCalls, HasOwnCalls, MadeLike, agree, call_interface, instead, prove_run,
    verify_run,
};
pub use separation::{Block, observe_both_duplex, observe_both_multi_field, turn_both};
pub use serializing_challenger::SerializingChallenger32;
pub use sha3::Sha3_256;
pub use sha256::Sha256;
pub use sponge::{Parameters, Sponge};
pub use usual::{
    BabyBearDuplex, BabyBearHash, BabyBearInGoldilocks, ByteHash, BytesDuplex, GoldilocksDuplex,
    KoalaBearDuplex, KoalaBearHash,
};
