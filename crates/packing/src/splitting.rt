// Words into scalars.
ghost use Rattle.std.specs.Prelude.{◌≡◌, ◌+◌, ◌≤◌, ◌++◌, length};
ghost use Rattle.buffer.specs.Items.{items};
ghost use Rattle.packing.specs.Packing.{digits_of};

use crate::LONGEST_SQUEEZE_LIST;
use buffer::Buffer;

// Promised of any count, and not of one pair of domains alone.
/// Appends the lowest digits of the word, lowest first.
pub fn push_digits<const SAMPLED: u64>(
    scalars: &mut Buffer<SAMPLED, LONGEST_SQUEEZE_LIST>,
    word: u64,
    count: usize,
)
    requires low { 2 ≤ SAMPLED }
    requires room { length (items scalars.old) + count ≤ LONGEST_SQUEEZE_LIST }
    ensures { items scalars.new ≡ items scalars.old ++ digits_of SAMPLED count word }
{
    let mut rest = word;
    for _ in 0..count {
        scalars.push(rest % SAMPLED);
        rest /= SAMPLED;
    }
}
