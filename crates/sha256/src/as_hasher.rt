// SHA-256 as a hasher.
ghost use Rattle.sha256.specs.Sha256.{sha256};
ghost use Rattle.sha256.specs.Sha256Proofs.{«sha256_hashing»};

use crate::hash;
use hasher::CryptographicHasher;

/// SHA-256 as a hasher.
#[derive(Clone, Copy)]
pub struct Sha256;

impl CryptographicHasher<32> for Sha256 {
    ghost digest = { λ _. sha256 };

    ghost hashing = { λ _. «sha256_hashing» };

    fn hash(&self, input: &[u8]) -> [u8; 32] {
        hash(input)
    }
}
