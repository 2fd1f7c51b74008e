// A list of bytes.
ghost use Rattle.std.specs.Prelude.{◌≡◌, ◌≤◌, length};
ghost use Rattle.refusal.specs.declared.limits.TheConstants.{LONGEST_INPUT};

use hasher::put;
use refusal::limits::LONGEST_INPUT;

/// A list of at most `LONGEST_INPUT` bytes: the first `count` cells.
#[derive(Clone, Copy)]
pub struct ByteList {
    cells: [u8; LONGEST_INPUT],
    count: usize,
    ghost sized: { length cells ≡ LONGEST_INPUT },
    ghost within: { count ≤ LONGEST_INPUT },
}

impl ByteList {
    ghost use Rattle.std.specs.Prelude.{◌≡◌, ◌+◌, ◌-◌, ◌<◌, ◌≤◌, ◌++◌, length, take, MatchOption};
    ghost use Rattle.hash_state.specs.Listed.{bytes_of};

    /// The list of these bytes; none if they are more than `LONGEST_INPUT`.
    pub fn new(bytes: &[u8]) -> Option<ByteList>
        ensures { MatchOption result (LONGEST_INPUT < length bytes.now)
            (λ l. (length bytes.now ≤ LONGEST_INPUT) × (bytes_of l ≡ bytes.now)) }
    {
        if bytes.len() > LONGEST_INPUT {
            return None;
        }
        let mut cells = [0; LONGEST_INPUT];
        put(&mut cells, 0, bytes);
        Some(ByteList {
            cells,
            count: bytes.len(),
        })
    }

    /// The bytes, to be read.
    pub fn as_slice(&self) -> &[u8]
        ensures { result.now ≡ bytes_of self.now }
    {
        &self.cells[..self.count]
    }

    /// How many bytes may still be appended.
    pub fn room(&self) -> usize
        ensures { result ≡ LONGEST_INPUT - length (bytes_of self.now) }
    {
        LONGEST_INPUT - self.count
    }

    /// Appends bytes that fit.
    pub fn append(&mut self, bytes: &[u8])
        requires fits { self.old.count + length bytes.now ≤ LONGEST_INPUT }
        ensures value { bytes_of self.new ≡ bytes_of self.old ++ bytes.now }
        ensures count { self.new.count ≡ self.old.count + length bytes.now }
    {
        put(&mut self.cells, self.count, bytes);
        self.count += bytes.len();
    }

    /// Puts these bytes in the place of all that it had.
    pub fn replace(&mut self, bytes: &[u8])
        requires fits { length bytes.now ≤ LONGEST_INPUT }
        ensures value { bytes_of self.new ≡ bytes.now }
        ensures count { self.new.count ≡ length bytes.now }
    {
        put(&mut self.cells, 0, bytes);
        self.count = bytes.len();
    }

    /// Puts these bytes in the place of as many at the end.
    pub fn replace_end(&mut self, bytes: &[u8])
        requires fits { length bytes.now ≤ self.old.count }
        ensures value { bytes_of self.new ≡ take (self.old.count - length bytes.now)
            (bytes_of self.old) ++ bytes.now }
        ensures count { self.new.count ≡ self.old.count }
    {
        put(&mut self.cells, self.count - bytes.len(), bytes);
    }
}
