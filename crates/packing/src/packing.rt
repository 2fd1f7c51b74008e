// Scalars into words.
ghost use Rattle.std.specs.Prelude.{◌≡◌, ◌*◌, ◌<◌, ◌≤◌, length};
ghost use Rattle.permutation.specs.Rows.{HasOnlyCodes};
ghost use Rattle.code_bits.specs.CodeBits.{code_bits};
ghost use Rattle.buffer.specs.Items.{items};
ghost use Rattle.packing.specs.Powers.{limbs};
ghost use Rattle.packing.specs.Packing.{pack, packed_words};

use crate::RadixPacking;
use buffer::Buffer;
use refusal::limits::{LONGEST_BATCH, WIDEST_ROW};

impl<const SAMPLED: u64, const ORDER: u64> RadixPacking<SAMPLED, ORDER> {
    /// A group of scalars, packed into a word.
    fn pack_group(&self, group: &[u64]) -> u64
        requires codes { HasOnlyCodes SAMPLED group.now }
        requires few { length group.now ≤ self.now.limbs }
        ensures value { result ≡ pack (code_bits SAMPLED) group.now }
        ensures code { result < ORDER }
    {
        let mut word = 0;
        for scalar in group.iter().rev() {
            word = word * self.radix + *scalar;
        }
        word
    }

    /// Packs the scalars in groups.
    pub fn pack_all(
        &self,
        words: &mut Buffer<ORDER, WIDEST_ROW>,
        scalars: &Buffer<SAMPLED, LONGEST_BATCH>,
    )
        requires room { length (items scalars.now) ≤ self.now.limbs * WIDEST_ROW }
        ensures { items words.new ≡ packed_words (code_bits SAMPLED) (limbs SAMPLED ORDER)
            (items scalars.now) }
    {
        words.clear();
        for group in scalars.as_slice().chunks(self.limbs) {
            words.push(self.pack_group(group));
        }
    }
}
