// A block that is written but for its last word.
ghost use Rattle.std.specs.Prelude.{◌<◌, ◌≤◌, length};
ghost use Rattle.buffer.specs.Items.{items};

use buffer::Buffer;
use domain::Domain;
use permutation::CryptographicPermutation;
use refusal::limits::WIDEST_ROW;
use sponge::Sponge;

/// A row that has a block written in it, of which a turn gives out the first `rate` cells, and the cell of the block's last word.
#[derive(Clone, Copy)]
pub struct PreparedBlock<const ORDER: u64> {
    row: Buffer<ORDER, WIDEST_ROW>,
    rate: usize,
    cell: usize,
    ghost some: { 1 ≤ rate },
    ghost wide: { rate < length (items row) },
    ghost inside: { cell < rate },
}

impl<const ORDER: u64> PreparedBlock<ORDER> {
    ghost use Rattle.std.specs.Prelude.{◌≡◌, ℕ, ◌<◌, ◌≤◌, length};
    ghost use Rattle.buffer.specs.Items.{items};
    ghost use Rattle.sponge.specs.Sponge.{block_turn, last_output};
    ghost use Rattle.sponge.specs.SpongeHeld.{held_value, make_meaning};
    ghost use Rattle.prepared_grind.specs.Tests.{with_last};
    ghost use Rattle.prepared_grind.specs.Blocks.{last_output_with};

    /// The words, written under the tag in a copy of the sponge's row; what the last of them is doesn't matter.
    pub fn new<D: Domain<ORDER> + Copy, P: CryptographicPermutation<D, ORDER> + Copy>(
        sponge: &Sponge<D, P, ORDER>,
        words: &Buffer<ORDER, WIDEST_ROW>,
        tag: u64,
    ) -> Self
        requires some { 0 < length (items words.now) }
        requires room { length (items words.now) ≤ sponge.now.rate }
        requires tagged { tag < ORDER }
        ensures { (code : ℕ) → last_output_with (make_meaning sponge.now).image result code
            ≡ last_output (block_turn (make_meaning sponge.now) (held_value sponge.now).row
            (with_last (items words.now) code) tag).outputs }
    {
        let mut written = *sponge;
        written.write_block(words, tag);
        PreparedBlock {
            row: Buffer::from_slice(written.row_slice()),
            rate: sponge.rate(),
            cell: words.len() - 1,
        }
    }

    /// The last output of the block's turn, with this code as its last word: one copy of the row, one permutation.
    pub fn last_output<D: Domain<ORDER>, P: CryptographicPermutation<D, ORDER>>(
        &self,
        permutation: &P,
        code: u64,
    ) -> u64
        requires code { code < ORDER }
        ensures value { result ≡ last_output_with (P.image permutation.now) self.now code }
        ensures code { result < ORDER }
    {
        let mut row = self.row;
        row.put(self.cell, code);
        row.permute::<D, P>(permutation);
        row.get(self.rate - 1)
    }
}
