//! Permutations of rows of codes.
#![tactic(auto)]

ghost use Rattle.std.specs.Prelude.{◌≡◌, List, ℕ};
ghost use Rattle.permutation.specs.Rows.{IsRow, IsLawful};

use domain::Domain;

mod choice;
mod ladder;
mod mirror;

pub use choice::Permutation;
pub use ladder::Ladder;
pub use mirror::Mirror;

/// The greatest width of a row that the law of permutations speaks of.
pub const GREATEST_WIDTH: usize = 64;

/// A permutation of the rows of codes of each width.
pub trait CryptographicPermutation<D: Domain<ORDER>, const ORDER: u64> {
    // The row that a row goes to.
    ghost image: { Self → List ℕ → List ℕ };

    // What each permutation must prove.
    ghost lawful: { (p : Self) → IsLawful ORDER (image p) };

    /// Permutes the row in place.
    fn permute(&self, row: &mut [u64])
        requires row { IsRow ORDER row.old }
        ensures { row.new ≡ image self.now row.old };
}
