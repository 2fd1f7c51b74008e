//! Codes in a fixed array with a count.
#![tactic(auto)]

ghost use Rattle.std.specs.Prelude.{◌≡◌, ◌≤◌, length, take};
ghost use Rattle.permutation.specs.Rows.{HasOnlyCodes};
ghost use Rattle.buffer.specs.declared.TheConstants.{LARGEST_BUFFER};

use domain::Domain;
use permutation::CryptographicPermutation;

/// The most places of a buffer: their number fits every counter.
pub const LARGEST_BUFFER: usize = 1024;

/// At most `N` codes of the domain of order `ORDER`: the first `count` cells.
#[derive(Clone, Copy)]
pub struct Buffer<const ORDER: u64, const N: usize> {
    cells: [u64; N],
    count: usize,
    ghost small: { N ≤ LARGEST_BUFFER },
    ghost sized: { length cells ≡ N },
    ghost within: { count ≤ N },
    ghost codes: { HasOnlyCodes ORDER (take count cells) },
}

impl<const ORDER: u64, const N: usize> Buffer<ORDER, N> {
    ghost use Rattle.std.specs.Prelude.{◌≡◌, ◌-◌, ◌<◌, ◌≤◌, [], ◌∷◌, ◌++◌, length, take, drop};
    ghost use Rattle.std.specs.Prelude.{replicate, slice_index, slice_set};
    ghost use Rattle.permutation.specs.Rows.{HasOnlyCodes, IsRow};
    ghost use Rattle.buffer.specs.Items.{items};

    /// A buffer of `count` zeros.
    pub fn zeros(count: usize) -> Self
        requires within { count ≤ N }
        requires small { N ≤ LARGEST_BUFFER }
        requires positive { 0 < ORDER }
        ensures { items result ≡ replicate count 0 }
    {
        Buffer {
            cells: [0; N],
            count,
        }
    }

    /// The codes, in a buffer.
    pub fn from_slice(codes: &[u64]) -> Self
        requires few { length codes.now ≤ N }
        requires small { N ≤ LARGEST_BUFFER }
        requires codes { HasOnlyCodes ORDER codes.now }
        ensures { items result ≡ codes.now }
    {
        let mut cells = [0; N];
        cells[..codes.len()].copy_from_slice(codes);
        Buffer {
            cells,
            count: codes.len(),
        }
    }

    /// How many codes it holds.
    pub fn len(&self) -> usize
        ensures { result ≡ length (items self.now) }
    {
        self.count
    }

    /// The code at `i`.
    pub fn get(&self, i: usize) -> u64
        requires inside { i < length (items self.now) }
        ensures value { result ≡ slice_index (items self.now) i }
        ensures code { result < ORDER }
    {
        self.cells[i]
    }

    /// Writes the code `c` at `i`.
    pub fn put(&mut self, i: usize, c: u64)
        requires inside { i < length (items self.old) }
        requires code { c < ORDER }
        ensures { items self.new ≡ slice_set (items self.old) i c }
    {
        self.cells[i] = c;
    }

    /// Writes the codes of `words` into the first cells, and zeroes those after them up to `end`.
    pub fn overwrite(&mut self, words: &Self, end: usize)
        requires room { length (items words.now) ≤ end }
        requires inside { end ≤ length (items self.old) }
        ensures { items self.new ≡ items words.now
            ++ (replicate (end - length (items words.now)) 0 ++ drop end (items self.old)) }
    {
        let n = words.count;
        let cells = &mut self.cells[..];
        cells[..n].copy_from_slice(words.as_slice());
        cells[n..end].fill(0);
    }

    /// Appends the code `c`.
    pub fn push(&mut self, c: u64)
        requires room { length (items self.old) < N }
        requires code { c < ORDER }
        ensures { items self.new ≡ items self.old ++ (c ∷ []) }
    {
        self.cells[self.count] = c;
        self.count += 1;
    }

    /// Takes the last code.
    pub fn pop(&mut self) -> u64
        requires some { 0 < length (items self.old) }
        ensures value { result ≡ slice_index (items self.old) (length (items self.old) - 1) }
        ensures code { result < ORDER }
        ensures left { items self.new ≡ take (length (items self.old) - 1) (items self.old) }
    {
        self.count -= 1;
        self.cells[self.count]
    }

    /// Drops all codes.
    pub fn clear(&mut self)
        ensures { items self.new ≡ [] }
    {
        self.count = 0;
    }

    /// The first `n` codes, copied.
    pub fn front(&self, n: usize) -> Self
        requires inside { n ≤ length (items self.now) }
        ensures { items result ≡ take n (items self.now) }
    {
        Buffer {
            cells: self.cells,
            count: n,
        }
    }

    /// The codes, in order.
    pub fn as_slice(&self) -> &[u64]
        ensures { result.now ≡ items self.now }
    {
        &self.cells[..self.count]
    }

    /// Permutes the codes, of which there are at least two.
    pub fn permute<D: Domain<ORDER>, P: CryptographicPermutation<D, ORDER>>(
        &mut self,
        permutation: &P,
    )
        requires row { IsRow ORDER (items self.old) }
        ensures { items self.new ≡ P.image permutation.now (items self.old) }
    {
        permutation.permute(&mut self.cells[..self.count]);
    }
}
