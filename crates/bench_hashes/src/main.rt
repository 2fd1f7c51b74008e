//! Hashes 1,024 bytes again and again: `bench_hashes NAME COUNT`, where NAME is sha256, sha3, or sha2 for SHA-256 of the kit's crate of that name.
#![tactic(auto)]

use hasher::CryptographicHasher;
use sha2::Digest;
use sha3::Sha3_256;
use sha256::Sha256;
use std::{env, io};

/// What the chain calls at each turn.
trait TextHash {
    fn digest_of(&self, text: &[u8]) -> [u8; 32];
}

/// A hasher of this repository.
struct Ours<H: CryptographicHasher<32>> {
    hasher: H,
}

impl<H: CryptographicHasher<32>> TextHash for Ours<H> {
    fn digest_of(&self, text: &[u8]) -> [u8; 32] {
        self.hasher.hash(text)
    }
}

/// SHA-256 of the kit's crate `sha2`.
struct OfTheKit;

impl TextHash for OfTheKit {
    fn digest_of(&self, text: &[u8]) -> [u8; 32] {
        sha2::Sha256::digest(text)
    }
}

/// Hashes a text of 1,024 bytes `count` times, and each time writes two bytes of the digest into it.
fn chain<H: TextHash>(h: &H, count: u32) -> [u8; 32] {
    let mut text = [0u8; 1024];
    // An index, since a turn writes the place of its number and the first, and goes over none.
    for i in 0..count {
        let d = h.digest_of(&text);
        text[(i % 1024) as usize] = d[0];
        text[0] = d[31];
    }
    h.digest_of(&text)
}

fn main(rt: HostRuntime) -> io::Result<()> {
    let mut args = env::args(&rt)?.skip(1);
    let name = args.next();
    let count = args.next().and_then(|word| word.parse().ok()).unwrap_or(0);
    let digest = match name.as_deref() {
        Some("sha3") => chain(&Ours { hasher: Sha3_256 }, count),
        Some("sha2") => chain(&OfTheKit, count),
        Some(_) => chain(&Ours { hasher: Sha256 }, count),
        None => [0; 32],
    };
    println!(rt; "{digest:?}")
}
