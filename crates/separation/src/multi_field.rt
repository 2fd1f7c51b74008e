// Multi-field challengers that are given blocks.
ghost use Rattle.std.specs.Prelude.{◌≡◌, ◌&&◌, ◌≢◌, if◌then◌else◌, IsTrue};
ghost use Rattle.sponge.specs.SameSponge.{SameSponge};
ghost use Rattle.multi_field_challenger.specs.Holds.{held_value, make, make_meaning};
ghost use Rattle.separation.specs.Blocks.{numbers_of};
ghost use Rattle.separation.specs.Separation.{AreUnlike};
ghost use Rattle.separation.specs.Given.{multi_takes, multi_after_given, IsOneTurn};

use crate::Block;
use crate::turns::is_turn;
use challenger_traits::{CanObserve, CanObserveDigest};
use domain::Domain;
use multi_field_challenger::MultiField32Challenger;
use permutation::CryptographicPermutation;

/// Is nothing pending, and is it a block of scalars or of words, or none with no output left and the squeeze list empty?
fn takes<
    F: Domain<SAMPLED>,
    D: Domain<ORDER>,
    P: CryptographicPermutation<D, ORDER>,
    const SAMPLED: u64,
    const ORDER: u64,
>(challenger: &MultiField32Challenger<F, D, P, SAMPLED, ORDER>, block: Option<Block>) -> bool
    ensures { result ≡ multi_takes SAMPLED (make_meaning challenger.now) (held_value challenger.now)
        (numbers_of block.entry) }
{
    if !challenger.pending().is_empty() {
        return false;
    }
    match block {
        None => challenger.outputs().is_empty() && challenger.squeeze().is_empty(),
        Some(Block::Codes(_)) => false,
        given => is_turn::<F, SAMPLED, ORDER>(given, challenger.rate()),
    }
}

/// The scalars are observed, or the words as a digest, if there are some, and a sample is taken.
fn give<
    F: Domain<SAMPLED>,
    D: Domain<ORDER>,
    P: CryptographicPermutation<D, ORDER>,
    const SAMPLED: u64,
    const ORDER: u64,
>(challenger: &mut MultiField32Challenger<F, D, P, SAMPLED, ORDER>, block: Option<Block>)
    requires taken { IsTrue (multi_takes SAMPLED (make_meaning challenger.old)
        (held_value challenger.old) (numbers_of block)) }
    ensures state { held_value challenger.new ≡ multi_after_given SAMPLED
        (make_meaning challenger.old) (held_value challenger.old) (numbers_of block.entry) }
    ensures make { make challenger.new ≡ make challenger.old }
{
    if let Some(Block::Scalars(scalars)) = block {
        let _ = challenger.observe(scalars);
    }
    if let Some(Block::Words(words)) = block {
        let _ = challenger.observe_digest(words);
    }
    challenger.sample();
}

/// Gives the first challenger `left` and the second one `right`, a block of scalars or of words, or none, each followed by a sample, and answers true;
/// answers false and moves nothing if one of them is no block of that challenger, or something is pending in it, or an output or a scalar is left where no block is given.
pub fn observe_both_multi_field<
    F: Domain<SAMPLED>,
    D: Domain<ORDER>,
    P: CryptographicPermutation<D, ORDER>,
    G: Domain<SAMPLED>,
    E: Domain<ORDER>,
    Q: CryptographicPermutation<E, ORDER>,
    const SAMPLED: u64,
    const ORDER: u64,
>(
    first: &mut MultiField32Challenger<F, D, P, SAMPLED, ORDER>,
    second: &mut MultiField32Challenger<G, E, Q, SAMPLED, ORDER>,
    left: Option<Block>,
    right: Option<Block>,
) -> bool
    ensures answer { result ≡ (multi_takes SAMPLED (make_meaning first.old) (held_value first.old)
        (numbers_of left.entry) && multi_takes SAMPLED (make_meaning second.old)
        (held_value second.old) (numbers_of right.entry)) }
    ensures first { held_value first.new ≡ (if result
        then multi_after_given SAMPLED (make_meaning first.old) (held_value first.old)
        (numbers_of left.entry) else held_value first.old) }
    ensures second { held_value second.new ≡ (if result
        then multi_after_given SAMPLED (make_meaning second.old) (held_value second.old)
        (numbers_of right.entry) else held_value second.old) }
    ensures makes { (make first.new ≡ make first.old) × (make second.new ≡ make second.old) }
    ensures turns { IsTrue result → IsOneTurn SAMPLED (make_meaning first.old)
        (held_value first.old).row (numbers_of left.entry) (held_value first.new).row
        × IsOneTurn SAMPLED (make_meaning second.old) (held_value second.old).row
        (numbers_of right.entry) (held_value second.new).row }
    ensures apart { IsTrue result → SameSponge (make_meaning first.old) (make_meaning second.old)
        → (held_value first.old).row ≡ (held_value second.old).row
        → AreUnlike (numbers_of left.entry) (numbers_of right.entry)
        → (held_value first.new).row ≢ (held_value second.new).row }
{
    if !takes(first, left) || !takes(second, right) {
        return false;
    }
    give(first, left);
    give(second, right);
    true
}
