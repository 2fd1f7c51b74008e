// The permutation and the hash function that a line names.
ghost use Rattle.std.specs.Prelude.{◌≡◌, ℕ};
ghost use Rattle.refusal.specs.Made.{MadeUnless};
ghost use Rattle.domain.specs.Arithmetic.{Arithmetic};
ghost use Rattle.permutation.specs.Choice.{image as image_of};
ghost use Rattle.played.specs.Permutations.{named_no, named_image};
ghost use Rattle.played.specs.Hashers.{named_hasher};

use hashers::Hasher;
use permutation::{Ladder, Mirror, Permutation};
use refusal::Refusal;
use script::{HasherName, PermutationName};

/// The permutation of a name; refused if it is a ladder of other than 1 to `MOST_ROUNDS` rounds.
pub fn named_permutation(name: PermutationName) -> Result<Permutation, Refusal>
    ensures { MadeUnless (named_no name) (λ p. (order : ℕ) (d : Arithmetic order)
        → image_of d p ≡ named_image d name) result }
{
    match name {
        PermutationName::Mirror => Ok(Permutation::Mirror(Mirror)),
        PermutationName::Ladder(rounds) => Ok(Permutation::Ladder(Ladder::new(rounds)?)),
    }
}

/// The hash function of a name.
pub fn named_hasher(name: HasherName) -> Hasher
    ensures { result ≡ named_hasher name }
{
    match name {
        HasherName::Sha256 => Hasher::Sha256,
        HasherName::Sha3_256 => Hasher::Sha3_256,
    }
}
