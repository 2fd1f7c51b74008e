//! SHA-256, as FIPS 180-4 defines it.
#![tactic(auto)]

ghost use Rattle.std.specs.Prelude.{◌≡◌, ◌+◌, ◌-◌, ◌<◌, ◌≤◌, ◌++◌, length, take, fold, bit_xor};
ghost use Rattle.std.specs.Prelude.{slice_index, slice_set};
ghost use Rattle.std.specs.Int.{w32, rotate_right};
ghost use Rattle.sha256.specs.Sha256.{Ch, Maj, shr, K, round, rounds, schedule, next, words};
ghost use Rattle.sha256.specs.Sha256.{next_hash_value, ending, bytes, sha256};
ghost use Rattle.sha256.specs.Example.{abc, «abc_digest»};

use hasher::{marked_block, put};

mod as_hasher;

pub use as_hasher::Sha256;

/// Eight words: the hash value, or the working variables.
#[derive(Clone, Copy)]
pub struct Words {
    a: u32,
    b: u32,
    c: u32,
    d: u32,
    e: u32,
    f: u32,
    g: u32,
    h: u32,
}

const ROUND_CONSTANTS: [u32; 64] = [
    0x428a2f98, 0x71374491, 0xb5c0fbcf, 0xe9b5dba5, 0x3956c25b, 0x59f111f1, 0x923f82a4, 0xab1c5ed5,
    0xd807aa98, 0x12835b01, 0x243185be, 0x550c7dc3, 0x72be5d74, 0x80deb1fe, 0x9bdc06a7, 0xc19bf174,
    0xe49b69c1, 0xefbe4786, 0x0fc19dc6, 0x240ca1cc, 0x2de92c6f, 0x4a7484aa, 0x5cb0a9dc, 0x76f988da,
    0x983e5152, 0xa831c66d, 0xb00327c8, 0xbf597fc7, 0xc6e00bf3, 0xd5a79147, 0x06ca6351, 0x14292967,
    0x27b70a85, 0x2e1b2138, 0x4d2c6dfc, 0x53380d13, 0x650a7354, 0x766a0abb, 0x81c2c92e, 0x92722c85,
    0xa2bfe8a1, 0xa81a664b, 0xc24b8b70, 0xc76c51a3, 0xd192e819, 0xd6990624, 0xf40e3585, 0x106aa070,
    0x19a4c116, 0x1e376c08, 0x2748774c, 0x34b0bcb5, 0x391c0cb3, 0x4ed8aa4a, 0x5b9cca4f, 0x682e6ff3,
    0x748f82ee, 0x78a5636f, 0x84c87814, 0x8cc70208, 0x90befffa, 0xa4506ceb, 0xbef9a3f7, 0xc67178f2,
];

const INITIAL: Words = Words {
    a: 0x6a09e667,
    b: 0xbb67ae85,
    c: 0x3c6ef372,
    d: 0xa54ff53a,
    e: 0x510e527f,
    f: 0x9b05688c,
    g: 0x1f83d9ab,
    h: 0x5be0cd19,
};

/// Bits of `f` where `e` has 1, and of `g` elsewhere.
fn choose(e: u32, f: u32, g: u32) -> u32
    ensures { result ≡ Ch e f g }
{
    (e & f) ^ (!e & g)
}

/// Each bit as most of the three have it.
fn majority(a: u32, b: u32, c: u32) -> u32
    ensures { result ≡ Maj a b c }
{
    (a & b) ^ (a & c) ^ (b & c)
}

/// Three rotations, put together: the shape of Σ0 and Σ1.
fn big_sigma<const A: u32, const B: u32, const C: u32>(x: u32) -> u32
    ensures { result ≡ bit_xor (bit_xor (rotate_right w32 x A) (rotate_right w32 x B))
        (rotate_right w32 x C) }
{
    x.rotate_right(A) ^ x.rotate_right(B) ^ x.rotate_right(C)
}

/// Two rotations and a shift, put together: the shape of σ0 and σ1.
fn small_sigma<const A: u32, const B: u32, const C: u32>(x: u32) -> u32
    requires { C < 32 }
    ensures { result ≡ bit_xor (bit_xor (rotate_right w32 x A) (rotate_right w32 x B)) (shr C x) }
{
    x.rotate_right(A) ^ x.rotate_right(B) ^ (x >> C)
}

/// The constant of round `t`.
// `t` is the round of the standard.
#[tactic(auto, unfolding(crate::specs::Sha256::K))]
fn round_constant(t: usize) -> u32
    requires { t < 64 }
    ensures { result ≡ slice_index K t }
{
    ROUND_CONSTANTS[t]
}

/// One round, with its constant and its word.
#[tactic(auto, unfolding(crate::specs::Sha256::round))]
fn one_round(s: Words, k: u32, w: u32) -> Words
    ensures { result ≡ round k w s }
{
    let t1 = s
        .h
        .wrapping_add(big_sigma::<6, 11, 25>(s.e))
        .wrapping_add(choose(s.e, s.f, s.g))
        .wrapping_add(k)
        .wrapping_add(w);
    let t2 = big_sigma::<2, 13, 22>(s.a).wrapping_add(majority(s.a, s.b, s.c));
    Words {
        a: t1.wrapping_add(t2),
        b: s.a,
        c: s.b,
        d: s.c,
        e: s.d.wrapping_add(t1),
        f: s.e,
        g: s.f,
        h: s.g,
    }
}

/// The block's words, in the first 16 places.
fn block_words(block: &[u8; 64]) -> [u32; 64]
    ensures { take 16 result ≡ words block.now }
{
    let mut w = [0u32; 64];
    for (t, bytes) in block.as_chunks::<4>().0.iter().enumerate() {
        w[t] = u32::from_be_bytes(*bytes);
    }
    w
}

/// Writes the word of round `t + 16`, from those before it.
fn extend(w: &mut [u32; 64], t: usize)
    requires { t < 48 }
    ensures { w.new ≡ slice_set w.old (t + 16) (next w.old (t + 16)) }
{
    w[t + 16] = small_sigma::<17, 19, 10>(w[t + 14])
        .wrapping_add(w[t + 9])
        .wrapping_add(small_sigma::<7, 18, 3>(w[t + 1]))
        .wrapping_add(w[t]);
}

/// Round `t`, with its word.
fn round_of(v: Words, w: &[u32; 64], t: usize) -> Words
    requires { t < 64 }
    ensures { result ≡ round (slice_index K t) (slice_index w.now t) v }
{
    one_round(v, round_constant(t), w[t])
}

/// The words of rounds 16 to 63, each from those before it.
fn make_words(w: &mut [u32; 64])
    ensures { w.new ≡ schedule 48 (take 16 w.old) }
{
    for t in 0..48 {
        extend(w, t);
    }
}

/// All rounds.
// Eight rounds to a turn of the loop: with one, two or four it ran at 0.84 to 0.95 of this speed (docs/history/BENCHMARKS-other-forms.md).
fn all_rounds(s: Words, w: &[u32; 64]) -> Words
    ensures { result ≡ rounds 64 w.now s }
{
    let mut v = s;
    for turn in 0..8 {
        let t = 8 * turn;
        v = round_of(v, w, t);
        v = round_of(v, w, t + 1);
        v = round_of(v, w, t + 2);
        v = round_of(v, w, t + 3);
        v = round_of(v, w, t + 4);
        v = round_of(v, w, t + 5);
        v = round_of(v, w, t + 6);
        v = round_of(v, w, t + 7);
    }
    v
}

/// The hash value after one block.
#[tactic(auto, unfolding(crate::specs::Sha256::next_hash_value))]
fn compress(s: Words, block: &[u8; 64]) -> Words
    ensures { result ≡ next_hash_value s block.now }
{
    let mut w = block_words(block);
    make_words(&mut w);
    let v = all_rounds(s, &w);
    Words {
        a: v.a.wrapping_add(s.a),
        b: v.b.wrapping_add(s.b),
        c: v.c.wrapping_add(s.c),
        d: v.d.wrapping_add(s.d),
        e: v.e.wrapping_add(s.e),
        f: v.f.wrapping_add(s.f),
        g: v.g.wrapping_add(s.g),
        h: v.h.wrapping_add(s.h),
    }
}

/// The hash value after each block in turn.
fn absorb(s: Words, blocks: &[[u8; 64]]) -> Words
    ensures { result ≡ fold next_hash_value s blocks.now }
{
    blocks.iter().fold(s, |h, block| compress(h, block))
}

/// The hash value as bytes, high bytes first.
#[tactic(auto, unfolding(crate::specs::Sha256::bytes))]
fn digest_bytes(s: Words) -> [u8; 32]
    ensures { result ≡ bytes s }
{
    let words = [
        s.a.to_be_bytes(),
        s.b.to_be_bytes(),
        s.c.to_be_bytes(),
        s.d.to_be_bytes(),
        s.e.to_be_bytes(),
        s.f.to_be_bytes(),
        s.g.to_be_bytes(),
        s.h.to_be_bytes(),
    ];
    let mut digest = [0; 32];
    digest.copy_from_slice(words.as_flattened());
    digest
}

/// The bytes after the last whole block of a message of `len` bytes, then the ending, up to `end`.
#[tactic(auto, using(crate::proofs::Padding::last_is, crate::proofs::Padding::be64_bits))]
fn last_blocks(rest: &[u8], len: u64, end: usize) -> [u8; 128]
    requires room { length rest.now + 9 ≤ end }
    requires two_blocks { end ≤ 128 }
    ensures { take end result ≡ rest.now ++ ending (end - 9 - length rest.now) len }
{
    let mut last = marked_block::<128>(rest, 0x80);
    put(&mut last, end - 8, &len.wrapping_mul(8).to_be_bytes());
    last
}

/// The SHA-256 digest of the input.
pub fn hash(input: &[u8]) -> [u8; 32]
    ensures { result ≡ sha256 input.now }
{
    let (whole, rest) = input.as_chunks::<64>();
    let end = if rest.len() < 56 { 64 } else { 128 };
    let last = last_blocks(rest, input.len() as u64, end);
    let (tail, _) = last[0..end].as_chunks::<64>();
    digest_bytes(absorb(absorb(INITIAL, whole), tail))
}

/// The digest of the bytes "abc", the first example of the standard.
pub fn hash_abc() -> [u8; 32]
    ensures definition { result ≡ sha256 abc }
    ensures example { result ≡ «abc_digest» }
{
    hash(b"abc")
}
