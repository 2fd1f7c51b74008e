// Blocks of scalars and of words.
ghost use Rattle.std.specs.Prelude.{◌≡◌, ◌*◌, ◌≤◌, [], length, IsTrue};
ghost use Rattle.domain.specs.Codes.{all_codes};
ghost use Rattle.buffer.specs.Items.{items};
ghost use Rattle.sponge.specs.SpongeHeld.{held_value as sponge_held, make_meaning, SameMake};
ghost use Rattle.packing.specs.Packing.{groups};
ghost use Rattle.multi_field_blocks.specs.Blocks.{scalars_block_turn, words_block_turn};
ghost use Rattle.multi_field_blocks.specs.Blocks.{after_groups};

use buffer::Buffer;
use domain::Domain;
use packing::RadixPacking;
use permutation::CryptographicPermutation;
use refusal::limits::LONGEST_BATCH;
use sponge::Sponge;

/// A turn with the pending scalars: packed in groups, they are a block tagged by their number.
pub fn flush<
    D: Domain<ORDER>,
    P: CryptographicPermutation<D, ORDER>,
    const SAMPLED: u64,
    const ORDER: u64,
>(
    packing: &RadixPacking<SAMPLED, ORDER>,
    sponge: &mut Sponge<D, P, ORDER>,
    pending: &mut Buffer<SAMPLED, LONGEST_BATCH>,
)
    requires room { length (items pending.old) ≤ packing.now.limbs * sponge.old.rate }
    ensures state { sponge_held sponge.new ≡ scalars_block_turn SAMPLED (make_meaning sponge.old)
        (sponge_held sponge.old).row (items pending.old) }
    ensures emptied { items pending.new ≡ [] }
    ensures make { SameMake sponge.new sponge.old }
{
    let mut words = Buffer::zeros(0);
    packing.pack_all(&mut words, pending);
    sponge.absorb(&words, pending.len() as u64);
    pending.clear();
}

/// A turn with these words, as they are: a block tagged by their number.
pub fn absorb_group<D: Domain<ORDER>, P: CryptographicPermutation<D, ORDER>, const ORDER: u64>(
    sponge: &mut Sponge<D, P, ORDER>,
    words: &[u64],
)
    requires few { length words.now ≤ sponge.old.rate }
    requires codes { IsTrue (all_codes ORDER words.now) }
    ensures state { sponge_held sponge.new ≡ words_block_turn (make_meaning sponge.old)
        (sponge_held sponge.old).row words.now }
    ensures make { SameMake sponge.new sponge.old }
{
    sponge.absorb(&Buffer::from_slice(words), words.len() as u64);
}

/// Absorbs the words in groups of the rate, each a block tagged by the number of its words.
pub fn absorb_words<D: Domain<ORDER>, P: CryptographicPermutation<D, ORDER>, const ORDER: u64>(
    sponge: &mut Sponge<D, P, ORDER>,
    words: &[u64],
)
    requires codes { IsTrue (all_codes ORDER words.now) }
    ensures state { sponge_held sponge.new ≡ after_groups (make_meaning sponge.old)
        (sponge_held sponge.old) words.now (groups sponge.old.rate words.now) }
    ensures make { SameMake sponge.new sponge.old }
{
    for group in words.chunks(sponge.rate()) {
        absorb_group(sponge, group);
    }
}
