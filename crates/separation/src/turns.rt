// Turns of sponges with blocks.
ghost use Rattle.std.specs.Prelude.{◌≡◌, ℕ, ◌<◌, ◌≤◌, ◌&&◌, ◌≢◌, if◌then◌else◌, IsTrue};
ghost use Rattle.sponge.specs.SpongeHeld.{held_value, make_meaning, SameMake};
ghost use Rattle.sponge.specs.SameSponge.{SameSponge};
ghost use Rattle.sponge.specs.Tags.{Numbers};
ghost use Rattle.separation.specs.Blocks.{numbers_of, is_list_of_codes};
ghost use Rattle.sponge.specs.Tags.{tag_of};
ghost use Rattle.separation.specs.Blocks.{is_scalars_block, is_turn, after_given};
ghost use Rattle.separation.specs.Separation.{AreUnlike, IsTagRule};
ghost use Rattle.separation.specs.Separation.{turn_under, UnlikeTurnsLeadToUnlikeRows};
ghost use Rattle.separation.specs.Separation.{EachBlockIsWrittenUnderItsTag};

use crate::Block;
use buffer::Buffer;
use domain::{Domain, all_codes};
use multi_field_blocks::{absorb_group, flush};
use packing::RadixPacking;
use permutation::CryptographicPermutation;
use refusal::limits::{GREATEST_SAMPLED_ORDER, LONGEST_BATCH, WIDEST_RATE};
use sponge::Sponge;

/// Are these 1 to `most` numbers, all codes?
pub(crate) fn is_list_of_codes<const ORDER: u64>(numbers: &[u64], most: usize) -> bool
    ensures { result ≡ is_list_of_codes ORDER most numbers.now }
{
    !numbers.is_empty() && numbers.len() <= most && all_codes::<ORDER>(numbers)
}

/// Are these a block of scalars? The pair of orders is asked too.
fn is_scalars_block<const SAMPLED: u64, const ORDER: u64>(scalars: &[u64], rate: usize) -> bool
    requires low { 2 ≤ SAMPLED }
    requires few { rate ≤ WIDEST_RATE }
    ensures { result ≡ is_scalars_block SAMPLED ORDER rate scalars.now }
{
    if SAMPLED > GREATEST_SAMPLED_ORDER || SAMPLED >= ORDER {
        return false;
    }
    let batch = RadixPacking::<SAMPLED, ORDER>::new().limbs() * rate;
    batch <= LONGEST_BATCH && is_list_of_codes::<SAMPLED>(scalars, batch)
}

/// Is it none, or a block of this sampled domain, order and rate?
pub(crate) fn is_turn<F: Domain<SAMPLED>, const SAMPLED: u64, const ORDER: u64>(
    block: Option<Block>,
    rate: usize,
) -> bool
    requires few { rate ≤ WIDEST_RATE }
    ensures { result ≡ is_turn SAMPLED ORDER rate (numbers_of block.entry) }
{
    match block {
        None => true,
        Some(Block::Codes(codes)) => is_list_of_codes::<ORDER>(codes, rate),
        Some(Block::Scalars(scalars)) => is_scalars_block::<SAMPLED, ORDER>(scalars, rate),
        Some(Block::Words(words)) => is_list_of_codes::<ORDER>(words, rate),
    }
}

/// A turn with this block, or an empty turn.
fn turn<
    F: Domain<SAMPLED>,
    D: Domain<ORDER>,
    P: CryptographicPermutation<D, ORDER>,
    const SAMPLED: u64,
    const ORDER: u64,
>(sponge: &mut Sponge<D, P, ORDER>, block: Option<Block>)
    requires turn { IsTrue (is_turn SAMPLED ORDER sponge.old.rate (numbers_of block)) }
    ensures state { held_value sponge.new ≡ after_given SAMPLED (make_meaning sponge.old)
        (held_value sponge.old).row (numbers_of block.entry) }
    ensures make { SameMake sponge.new sponge.old }
{
    match block {
        None => sponge.permute(),
        Some(Block::Codes(codes)) => sponge.turn(&Buffer::from_slice(codes)),
        Some(Block::Scalars(scalars)) => {
            let packing = RadixPacking::<SAMPLED, ORDER>::new();
            flush(&packing, sponge, &mut Buffer::from_slice(scalars));
        }
        Some(Block::Words(words)) => absorb_group(sponge, words),
    }
}

// Refused by a `false`: no call of a challenger can be refused so, and no question has a number for it.
/// Gives the first sponge a turn with `left` and the second one with `right`, a block or none, and answers true;
/// answers false and moves nothing if one of them is no block of that sponge.
pub fn turn_both<
    F: Domain<SAMPLED>,
    D: Domain<ORDER>,
    P: CryptographicPermutation<D, ORDER>,
    E: Domain<ORDER>,
    Q: CryptographicPermutation<E, ORDER>,
    const SAMPLED: u64,
    const ORDER: u64,
>(
    first: &mut Sponge<D, P, ORDER>,
    second: &mut Sponge<E, Q, ORDER>,
    left: Option<Block>,
    right: Option<Block>,
) -> bool
    ensures answer { result ≡ (is_turn SAMPLED ORDER first.old.rate (numbers_of left.entry)
        && is_turn SAMPLED ORDER second.old.rate (numbers_of right.entry)) }
    ensures first { held_value first.new ≡ (if result
        then after_given SAMPLED (make_meaning first.old) (held_value first.old).row
        (numbers_of left.entry) else held_value first.old) }
    ensures second { held_value second.new ≡ (if result
        then after_given SAMPLED (make_meaning second.old) (held_value second.old).row
        (numbers_of right.entry) else held_value second.old) }
    ensures makes { (SameMake first.new first.old) × (SameMake second.new second.old) }
    ensures apart { IsTrue result → SameSponge (make_meaning first.old) (make_meaning second.old)
        → (held_value first.old).row ≡ (held_value second.old).row
        → AreUnlike (numbers_of left.entry) (numbers_of right.entry)
        → (held_value first.new).row ≢ (held_value second.new).row }
    ensures separation { UnlikeTurnsLeadToUnlikeRows (after_given SAMPLED (make_meaning first.old))
        SAMPLED (make_meaning first.old) }
    ensures any_tags { (tag : Numbers → ℕ) → IsTagRule SAMPLED ORDER first.old.rate tag
        → UnlikeTurnsLeadToUnlikeRows (turn_under tag SAMPLED (make_meaning first.old)) SAMPLED
        (make_meaning first.old) }
    ensures tags { IsTagRule SAMPLED ORDER first.old.rate tag_of }
    ensures written { EachBlockIsWrittenUnderItsTag SAMPLED (make_meaning first.old) }
{
    if !is_turn::<F, SAMPLED, ORDER>(left, first.rate())
        || !is_turn::<F, SAMPLED, ORDER>(right, second.rate())
    {
        return false;
    }
    turn::<F, D, P, SAMPLED, ORDER>(first, left);
    turn::<F, E, Q, SAMPLED, ORDER>(second, right);
    true
}
