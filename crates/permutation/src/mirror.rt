// Mirror.
ghost use Rattle.std.specs.Prelude.{ℕ, reverse};
ghost use Rattle.permutation.specs.MirrorProofs.{mirror_lawful};

use crate::CryptographicPermutation;
use domain::Domain;

/// The permutation that reverses a row.
#[derive(Clone, Copy, PartialEq, Eq, Debug)]
pub struct Mirror;

impl<D: Domain<ORDER>, const ORDER: u64> CryptographicPermutation<D, ORDER> for Mirror {
    ghost image = { λ _. reverse };

    ghost lawful = { λ _. mirror_lawful ORDER };

    fn permute(&self, row: &mut [u64]) {
        row.reverse();
    }
}
