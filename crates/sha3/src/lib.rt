//! SHA3-256, as FIPS 202 defines it.
#![tactic(auto)]

ghost use Rattle.std.specs.Prelude.{◌≡◌, ◌-◌, ◌<◌, ◌∷◌, ◌++◌, length, replicate, fold};
ghost use Rattle.sha3.specs.Sha3.{state_with_block, state_after_block, with_last_bit};
ghost use Rattle.sha3.specs.Sha3.{digest_of_state, «sha3_256»};
ghost use Rattle.sha3.specs.Sha3Proofs.{«sha3_hashing»};
ghost use Rattle.sha3.specs.Example.{abc, «abc_digest»};

use hasher::{CryptographicHasher, marked_block};
use keccak::permute;

/// The block mixed into the first 17 lanes; the others, the capacity, stay.
fn mix(a: [u64; 25], block: &[u8; 136]) -> [u64; 25]
    ensures { result ≡ state_with_block a block.now }
{
    let mut s = a;
    for (i, bytes) in block.as_chunks::<8>().0.iter().enumerate() {
        s[i] ^= u64::from_le_bytes(*bytes);
    }
    s
}

/// Absorbs each block in turn.
#[tactic(auto, unfolding(crate::specs::Sha3::state_after_block))]
fn absorb(a: [u64; 25], blocks: &[[u8; 136]]) -> [u64; 25]
    ensures { result ≡ fold state_after_block a blocks.now }
{
    let mut s = a;
    for block in blocks {
        s = permute(mix(s, block));
    }
    s
}

/// The bytes after the last whole block, then the domain bits and the padding.
#[tactic(auto, using(crate::proofs::Last::last_is))]
fn last_block(rest: &[u8]) -> [u8; 136]
    requires { length rest.now < 136 }
    ensures { result ≡ rest.now ++ with_last_bit (6 ∷ replicate (135 - length rest.now) 0) }
{
    let mut last = marked_block::<136>(rest, 0x06);
    last[135] |= 0x80;
    last
}

/// The first four lanes, low bytes first.
#[tactic(auto, unfolding(crate::specs::Sha3::digest_of_state))]
fn squeeze(a: &[u64; 25]) -> [u8; 32]
    ensures { result ≡ digest_of_state a.now }
{
    let lanes = [
        a[0].to_le_bytes(),
        a[1].to_le_bytes(),
        a[2].to_le_bytes(),
        a[3].to_le_bytes(),
    ];
    let mut digest = [0; 32];
    digest.copy_from_slice(lanes.as_flattened());
    digest
}

/// The SHA3-256 digest of the input.
pub fn hash(input: &[u8]) -> [u8; 32]
    ensures { result ≡ «sha3_256» input.now }
{
    let (whole, rest) = input.as_chunks::<136>();
    let s = absorb([0; 25], whole);
    squeeze(&absorb(s, &[last_block(rest)]))
}

/// The digest of the bytes "abc".
pub fn hash_abc() -> [u8; 32]
    ensures definition { result ≡ «sha3_256» abc }
    ensures example { result ≡ «abc_digest» }
{
    hash(b"abc")
}

/// SHA3-256 as a hasher.
#[derive(Clone, Copy)]
pub struct Sha3_256;

impl CryptographicHasher<32> for Sha3_256 {
    ghost digest = { λ _. «sha3_256» };

    ghost hashing = { λ _. «sha3_hashing» };

    fn hash(&self, input: &[u8]) -> [u8; 32] {
        hash(input)
    }
}
