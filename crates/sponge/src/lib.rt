//! A sponge: a row of codes under a permutation, its width and rate, and the outputs not yet taken.
#![tactic(auto)]

ghost use Rattle.std.specs.Prelude.{◌≡◌, ◌<◌, ◌≤◌, length, IsFalse};
ghost use Rattle.buffer.specs.Items.{items};

use buffer::Buffer;
use domain::Domain;
use permutation::CryptographicPermutation;
use refusal::Refusal;
use refusal::limits::{WIDEST_RATE, WIDEST_ROW};
use std::alloc::AllocError;
use std::marker::PhantomData;

mod parameters;

pub use parameters::Parameters;

/// A row of `width` codes and its permutation. Blocks write the first `rate` cells, and outputs are read from them.
// The width stands beside the row, so that what making fixed is told without the cells.
#[derive(Copy, Drop)]
pub struct Sponge<D: Domain<ORDER>, P: CryptographicPermutation<D, ORDER>, const ORDER: u64> {
    domain: PhantomData<D>,
    permutation: P,
    width: usize,
    rate: usize,
    row: Buffer<ORDER, WIDEST_ROW>,
    outputs: Buffer<ORDER, WIDEST_ROW>,
    ghost some: { 1 ≤ rate },
    ghost wide: { rate < width },
    ghost sized: { length (items row) ≡ width },
}

impl<D: Domain<ORDER>, P: CryptographicPermutation<D, ORDER> + Clone, const ORDER: u64> Clone
    for Sponge<D, P, ORDER> {
    ghost is_clone = { λ s t. P.is_clone s.permutation t.permutation × (t.width ≡ s.width)
        × (t.rate ≡ s.rate) × (t.row ≡ s.row) × (t.outputs ≡ s.outputs) };

    ghost is_infallible = { λ s. P.is_infallible s.permutation };

    fn clone(&self) -> Result<Self, AllocError> {
        Ok(Sponge {
            domain: PhantomData,
            permutation: self.permutation.clone()?,
            width: self.width,
            rate: self.rate,
            row: self.row,
            outputs: self.outputs,
        })
    }
}

impl<D: Domain<ORDER>, P: CryptographicPermutation<D, ORDER> + Drop, const ORDER: u64> Sponge<
    D,
    P,
    ORDER,
> {
    ghost use Rattle.refusal.specs.Made.{MadeUnless};
    ghost use Rattle.sponge.specs.SpongeHeld.{shape_no, IsFresh};

    /// Zeros, and no output; refused if the rate is 0 or not below the width, or the width is above `WIDEST_ROW`.
    pub fn new(width: usize, rate: usize, permutation: P) -> Result<Self, Refusal>
        ensures { MadeUnless (shape_no width rate) (IsFresh width rate permutation) result }
    {
        if rate < 1 || rate >= width || width > WIDEST_ROW {
            return Err(Refusal::Shape);
        }
        Ok(Sponge {
            domain: PhantomData,
            permutation,
            width,
            rate,
            row: Buffer::zeros(width),
            outputs: Buffer::zeros(0),
        })
    }
}

impl<D: Domain<ORDER>, P: CryptographicPermutation<D, ORDER>, const ORDER: u64> Sponge<
    D,
    P,
    ORDER,
> {
    ghost use Rattle.std.specs.Prelude.{◌≡◌, ◌<◌, ◌≤◌, [], length};
    ghost use Rattle.buffer.specs.Items.{items};
    ghost use Rattle.sponge.specs.Sponge.{sponge_state, row_with_block, block_turn, empty_turn};
    ghost use Rattle.sponge.specs.Sponge.{last_output, without_last};
    ghost use Rattle.sponge.specs.SpongeHeld.{held_value, make_meaning, SameMake};
    ghost use Rattle.sponge.specs.Sponge.{after_turn};

    /// The permutation, to be used on other rows.
    pub fn permutation(&self) -> &P
        ensures { result.now ≡ self.now.permutation }
    {
        &self.permutation
    }

    /// The number of cells.
    pub fn width(&self) -> usize
        ensures value { result ≡ self.now.width }
        ensures few { result ≤ WIDEST_ROW }
    {
        self.width
    }

    /// The number of cells that blocks write and outputs are read from.
    pub fn rate(&self) -> usize
        ensures value { result ≡ self.now.rate }
        ensures some { 1 ≤ result }
        ensures few { result ≤ WIDEST_RATE }
    {
        self.rate
    }

    /// How many outputs are left.
    pub fn outputs_left(&self) -> usize
        ensures { result ≡ length (held_value self.now).outputs }
    {
        self.outputs.len()
    }

    // The tag keeps a block apart from the same block with zeros behind it, which fills the rate alike.
    /// Writes a block, these words under this tag: they go into the first cells, the rest of the rate is zeroed, and cell `rate` gains the tag.
    pub fn write_block(&mut self, words: &Buffer<ORDER, WIDEST_ROW>, tag: u64)
        requires room { length (items words.now) ≤ self.old.rate }
        requires tagged { tag < ORDER }
        ensures state { held_value self.new ≡ sponge_state
            (row_with_block (make_meaning self.old) (held_value self.old).row (items words.now) tag)
            (held_value self.old).outputs }
        ensures make { SameMake self.new self.old }
    {
        let tagged = D::add(self.row.get(self.rate), tag);
        self.row.overwrite(words, self.rate);
        self.row.put(self.rate, tagged);
    }

    /// A turn with a block: it is written, and the row is permuted.
    pub fn absorb(&mut self, words: &Buffer<ORDER, WIDEST_ROW>, tag: u64)
        requires room { length (items words.now) ≤ self.old.rate }
        requires tagged { tag < ORDER }
        ensures state { held_value self.new ≡ block_turn (make_meaning self.old)
            (held_value self.old).row (items words.now) tag }
        ensures make { SameMake self.new self.old }
        ensures full { length (held_value self.new).outputs ≡ self.old.rate }
    {
        self.write_block(words, tag);
        self.permute();
    }

    /// A turn with no block: the row is permuted, and the outputs are its first `rate` cells, in order.
    pub fn permute(&mut self)
        ensures state { held_value self.new ≡ empty_turn (make_meaning self.old)
            (held_value self.old).row }
        ensures make { SameMake self.new self.old }
        ensures full { length (held_value self.new).outputs ≡ self.old.rate }
    {
        self.row.permute::<D, P>(&self.permutation);
        self.outputs = self.row.front(self.rate);
    }

    /// A turn with these codes: a block tagged by their number, or no block if there is none.
    pub fn turn(&mut self, codes: &Buffer<ORDER, WIDEST_ROW>)
        requires room { length (items codes.now) ≤ self.old.rate }
        ensures state { held_value self.new ≡ after_turn (make_meaning self.old)
            (held_value self.old).row (items codes.now) }
        ensures make { SameMake self.new self.old }
        ensures full { length (held_value self.new).outputs ≡ self.old.rate }
    {
        let n = codes.len();
        if n == 0 {
            self.permute();
            return;
        }
        self.absorb(codes, n as u64);
    }

    /// Drops all outputs.
    pub fn drop_outputs(&mut self)
        ensures state { held_value self.new ≡ sponge_state (held_value self.old).row [] }
        ensures make { SameMake self.new self.old }
    {
        self.outputs.clear();
    }

    /// Takes the last output.
    pub fn pop_output(&mut self) -> u64
        requires some { 0 < length (held_value self.old).outputs }
        ensures value { result ≡ last_output (held_value self.old).outputs }
        ensures code { result < ORDER }
        ensures state { held_value self.new ≡ sponge_state (held_value self.old).row
            (without_last (held_value self.old).outputs) }
        ensures make { SameMake self.new self.old }
    {
        self.outputs.pop()
    }

    /// The outputs not yet taken, copied.
    pub fn outputs(&self) -> Buffer<ORDER, WIDEST_ROW>
        ensures { items result ≡ (held_value self.now).outputs }
    {
        self.outputs
    }

    /// The row, to be read.
    pub fn row_slice(&self) -> &[u64]
        ensures { result.now ≡ (held_value self.now).row }
    {
        self.row.as_slice()
    }

    /// The outputs not yet taken, to be read.
    pub fn outputs_slice(&self) -> &[u64]
        ensures { result.now ≡ (held_value self.now).outputs }
    {
        self.outputs.as_slice()
    }
}
