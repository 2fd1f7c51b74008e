// Outputs, and the scalars that they split into.
ghost use Rattle.std.specs.Prelude.{◌≡◌, ◌<◌, ◌≤◌, length};
ghost use Rattle.buffer.specs.Items.{items};
ghost use Rattle.sponge.specs.SpongeHeld.{held_value as sponge_held, make_meaning, SameMake};
ghost use Rattle.packing.specs.Packing.{digits_of_all};
ghost use Rattle.multi_field_blocks.specs.Blocks.{with_outputs};

use buffer::Buffer;
use domain::Domain;
use packing::{LONGEST_SQUEEZE_LIST, MOST_DIGITS, push_digits};
use permutation::CryptographicPermutation;
use refusal::limits::WIDEST_ROW;
use sponge::Sponge;

/// A turn with no block, if no output is left.
#[tactic(auto, unfolding(crate::specs::Blocks::with_outputs))]
pub fn ensure_outputs<D: Domain<ORDER>, P: CryptographicPermutation<D, ORDER>, const ORDER: u64>(
    sponge: &mut Sponge<D, P, ORDER>,
)
    ensures state { sponge_held sponge.new ≡ with_outputs (make_meaning sponge.old)
        (sponge_held sponge.old) }
    ensures some { 0 < length (sponge_held sponge.new).outputs }
    ensures make { SameMake sponge.new sponge.old }
{
    if sponge.outputs_left() == 0 {
        sponge.permute();
    }
}

// Promised of any count, and not of one pair of domains alone.
/// Splits every output, in order.
pub fn split_all<const SAMPLED: u64, const ORDER: u64>(
    squeeze: &mut Buffer<SAMPLED, LONGEST_SQUEEZE_LIST>,
    outputs: &Buffer<ORDER, WIDEST_ROW>,
    digits: usize,
)
    requires low { 2 ≤ SAMPLED }
    requires few { digits ≤ MOST_DIGITS }
    ensures { items squeeze.new ≡ digits_of_all SAMPLED digits (items outputs.now) }
{
    squeeze.clear();
    for word in outputs.as_slice() {
        push_digits::<SAMPLED>(squeeze, *word, digits);
    }
}
