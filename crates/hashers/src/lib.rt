//! The hash functions of this repository as one hasher, chosen by its value.
#![tactic(auto)]

ghost use Rattle.hashers.specs.Choice.{digest_of, hashing_of};

use hasher::CryptographicHasher;

/// One of the hash functions, chosen while a program runs.
#[derive(Clone, Copy, PartialEq, Eq, Debug)]
pub enum Hasher {
    /// SHA-256 of FIPS 180-4.
    Sha256,
    /// SHA3-256 of FIPS 202.
    Sha3_256,
}

impl CryptographicHasher<32> for Hasher {
    ghost digest = { digest_of };

    ghost hashing = { hashing_of };

    fn hash(&self, input: &[u8]) -> [u8; 32] {
        match self {
            Hasher::Sha256 => sha256::hash(input),
            Hasher::Sha3_256 => sha3::hash(input),
        }
    }
}
