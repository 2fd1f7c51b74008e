//! The hash functions against the examples of the standards and against the answers of another implementation.
#![tactic(auto)]

use hasher::CryptographicHasher;
use hashers::Hasher;
use std::{array, fs, io};

/// The inputs of the standards' examples: no byte, "abc", 448 bits, 896 bits.
const INPUTS: [&str; 4] = [
    "",
    "abc",
    "abcdbcdecdefdefgefghfghighijhijkijkljklmklmnlmnomnopnopq",
    "abcdefghbcdefghicdefghijdefghijkefghijklfghijklmghijklmnhijklmnoijklmnopjklmnopqklmnopqrlmnopqrsmnopqrstnopqrstu",
];

const SHA256_EXAMPLES: [&str; 4] = [
    "e3b0c44298fc1c149afbf4c8996fb92427ae41e4649b934ca495991b7852b855",
    "ba7816bf8f01cfea414140de5dae2223b00361a396177a9cb410ff61f20015ad",
    "248d6a61d20638b8e5c026930c3e6039a33ce45964ff2167f6ecedd419db06c1",
    "cf5b16a778af8380036ce59e7b0492370b249b11e8f07a51afac45037afee9d1",
];

const SHA3_EXAMPLES: [&str; 4] = [
    "a7ffc6f8bf1ed76651c14756a061d662f580ff4de43b49fa82d80a4b80f8434a",
    "3a985da74fe225b2045c172d6bd390bd855f086e3e9d525b46bfe24511431532",
    "41c0dba2a9d6240849100376a8235e2c82e1b9998a999e21db32dd97496d3376",
    "916f6061fe879741ca6469b43971dfdb28b1a32dc36cb3254e812be27aad1d18",
];

/// Are the hex digits of the line those of the digest?
fn says(line: &str, digest: [u8; 32]) -> bool {
    let mut bytes = [0; 32];
    hex::decode_to_slice(line, &mut bytes).is_ok() && bytes == digest
}

/// Byte i is (7 i + 3) mod 256.
fn pattern() -> [u8; 1024] {
    array::from_fn(|i| ((i * 7 + 3) % 256) as u8)
}

/// How many of the 1,025 lines of the text are the digests of the pattern's fronts, in order.
fn agreeing<H: CryptographicHasher<32>>(h: &H, text: &str) -> usize {
    let bytes = pattern();
    text.lines()
        .enumerate()
        .filter(|(n, line)| {
            bytes
                .get(..*n)
                .is_some_and(|front| says(line, h.hash(front)))
        })
        .count()
}

/// How many of the four examples of the standards agree.
fn examples<H: CryptographicHasher<32>>(h: &H, digests: &[&str; 4]) -> usize {
    INPUTS
        .iter()
        .zip(digests)
        .filter(|(input, digest)| says(digest, h.hash(input.as_bytes())))
        .count()
}

fn main(rt: HostRuntime) -> io::Result<()> {
    let of_sha256 = fs::read_to_string(&rt, "sha256.txt")?;
    let of_sha3 = fs::read_to_string(&rt, "sha3-256.txt")?;
    let a = examples(&Hasher::Sha256, &SHA256_EXAMPLES);
    let b = agreeing(&Hasher::Sha256, of_sha256.as_str());
    let c = examples(&Hasher::Sha3_256, &SHA3_EXAMPLES);
    let d = agreeing(&Hasher::Sha3_256, of_sha3.as_str());
    println!(rt; "SHA-256 examples: {a} of 4 agree")?;
    println!(rt; "SHA-256 lengths 0 to 1024: {b} of 1025 agree")?;
    println!(rt; "SHA3-256 examples: {c} of 4 agree")?;
    println!(rt; "SHA3-256 lengths 0 to 1024: {d} of 1025 agree")
}
