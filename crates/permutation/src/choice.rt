// A choice among the permutations.
ghost use Rattle.permutation.specs.Choice.{image as image_of, lawful as lawful_of};

use crate::{CryptographicPermutation, Ladder, Mirror};
use domain::Domain;

/// One of the permutations, where which one is chosen while a program runs.
#[derive(Clone, Copy, PartialEq, Eq, Debug)]
pub enum Permutation {
    Mirror(Mirror),
    Ladder(Ladder),
}

impl<D: Domain<ORDER>, const ORDER: u64> CryptographicPermutation<D, ORDER> for Permutation {
    ghost image = { image_of D.arithmetic };

    ghost lawful = { lawful_of D.arithmetic };

    fn permute(&self, row: &mut [u64]) {
        match self {
            Permutation::Mirror(mirror) => CryptographicPermutation::<D, ORDER>::permute(
                mirror, row,
            ),
            Permutation::Ladder(ladder) => CryptographicPermutation::<D, ORDER>::permute(
                ladder, row,
            ),
        }
    }
}
