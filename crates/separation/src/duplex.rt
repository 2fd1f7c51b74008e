// Duplex challengers that are given blocks.
ghost use Rattle.std.specs.Prelude.{◌≡◌, ℕ, ◌&&◌, ◌≢◌, if◌then◌else◌, IsTrue};
ghost use Rattle.sponge.specs.SameSponge.{SameSponge};
ghost use Rattle.duplex_challenger.specs.Holds.{held_value, make, make_meaning};
ghost use Rattle.separation.specs.Blocks.{numbers_of};
ghost use Rattle.separation.specs.Separation.{AreUnlike};
ghost use Rattle.separation.specs.Given.{duplex_takes, duplex_after_given, IsOneTurn};

use crate::Block;
use crate::turns::is_list_of_codes;
use challenger_traits::CanObserve;
use domain::Domain;
use duplex_challenger::DuplexChallenger;
use permutation::CryptographicPermutation;

/// Is nothing pending, and is it a block of codes, or none with no output left?
fn takes<D: Domain<ORDER>, P: CryptographicPermutation<D, ORDER>, const ORDER: u64>(
    challenger: &DuplexChallenger<D, P, ORDER>,
    block: Option<Block>,
) -> bool
    ensures { result ≡ duplex_takes (make_meaning challenger.now) (held_value challenger.now)
        (numbers_of block.entry) }
{
    if !challenger.pending().is_empty() {
        return false;
    }
    match block {
        None => challenger.outputs().is_empty(),
        Some(Block::Codes(codes)) => is_list_of_codes::<ORDER>(codes, challenger.rate()),
        Some(Block::Scalars(_)) => false,
        Some(Block::Words(_)) => false,
    }
}

/// The codes are observed, if there are some, and a sample is taken.
fn give<D: Domain<ORDER>, P: CryptographicPermutation<D, ORDER>, const ORDER: u64>(
    challenger: &mut DuplexChallenger<D, P, ORDER>,
    block: Option<Block>,
)
    requires taken { IsTrue (duplex_takes (make_meaning challenger.old) (held_value challenger.old)
        (numbers_of block)) }
    ensures state { held_value challenger.new ≡ duplex_after_given (make_meaning challenger.old)
        (held_value challenger.old) (numbers_of block.entry) }
    ensures make { make challenger.new ≡ make challenger.old }
{
    if let Some(Block::Codes(codes)) = block {
        let _ = challenger.observe(codes);
    }
    challenger.sample();
}

/// Gives the first challenger `left` and the second one `right`, a block of codes or none, each followed by a sample, and answers true;
/// answers false and moves nothing if one of them is no block of that challenger, or something is pending in it, or an output is left where no block is given.
pub fn observe_both_duplex<
    D: Domain<ORDER>,
    P: CryptographicPermutation<D, ORDER>,
    E: Domain<ORDER>,
    Q: CryptographicPermutation<E, ORDER>,
    const ORDER: u64,
>(
    first: &mut DuplexChallenger<D, P, ORDER>,
    second: &mut DuplexChallenger<E, Q, ORDER>,
    left: Option<Block>,
    right: Option<Block>,
) -> bool
    ensures answer { result ≡ (duplex_takes (make_meaning first.old) (held_value first.old)
        (numbers_of left.entry) && duplex_takes (make_meaning second.old) (held_value second.old)
        (numbers_of right.entry)) }
    ensures first { held_value first.new ≡ (if result
        then duplex_after_given (make_meaning first.old) (held_value first.old)
        (numbers_of left.entry) else held_value first.old) }
    ensures second { held_value second.new ≡ (if result
        then duplex_after_given (make_meaning second.old) (held_value second.old)
        (numbers_of right.entry) else held_value second.old) }
    ensures makes { (make first.new ≡ make first.old) × (make second.new ≡ make second.old) }
    ensures turns { IsTrue result → (sampled : ℕ) → IsOneTurn sampled (make_meaning first.old)
        (held_value first.old).row (numbers_of left.entry) (held_value first.new).row
        × IsOneTurn sampled (make_meaning second.old) (held_value second.old).row
        (numbers_of right.entry) (held_value second.new).row }
    ensures apart { IsTrue result → SameSponge (make_meaning first.old) (make_meaning second.old)
        → (held_value first.old).row ≡ (held_value second.old).row
        → AreUnlike (numbers_of left.entry) (numbers_of right.entry)
        → (held_value first.new).row ≢ (held_value second.new).row }
{
    if !takes(first, left) || !takes(second, right) {
        return false;
    }
    give(first, left);
    give(second, right);
    true
}
