// The challenger and its single calls.
ghost use Rattle.std.specs.Prelude.{◌≡◌, ◌<◌, [], length};
ghost use Rattle.refusal.specs.Made.{MadeUnless};
ghost use Rattle.buffer.specs.Items.{items};
ghost use Rattle.challenger_traits.specs.Meaning.{Does};
ghost use Rattle.code_bits.specs.CodeBits.{code_bits};
ghost use Rattle.packing.specs.Powers.{limbs, digits};
ghost use Rattle.multi_field_challenger.specs.Rules.{after_flush_if_pending, after_fill};
ghost use Rattle.multi_field_challenger.specs.Rules.{with_scalar, sample_of, final_rate};
ghost use Rattle.multi_field_challenger.specs.Holds.{held_value as held_in, make as make_of};
ghost use Rattle.multi_field_challenger.specs.Holds.{make_meaning, first_no, IsFresh};

use crate::MultiField32Challenger;
use buffer::Buffer;
use code_bits::code_bits;
use domain::Domain;
use multi_field_blocks::{ensure_outputs, flush, split_all};
use packing::RadixPacking;
use permutation::CryptographicPermutation;
use refusal::Refusal;
use refusal::limits::{GREATEST_SAMPLED_ORDER, LONGEST_BATCH, WIDEST_ROW};
use sponge::Sponge;
use std::marker::PhantomData;

impl<
    F: Domain<SAMPLED>,
    D: Domain<ORDER>,
    P: CryptographicPermutation<D, ORDER> + Drop,
    const SAMPLED: u64,
    const ORDER: u64,
> MultiField32Challenger<F, D, P, SAMPLED, ORDER> {
    /// A fresh challenger; refused by the first question of its making that is failed.
    pub fn new(width: usize, rate: usize, permutation: P) -> Result<Self, Refusal>
        ensures { MadeUnless (first_no SAMPLED ORDER width rate) (IsFresh width rate permutation)
            result }
    {
        let sponge = Sponge::new(width, rate, permutation)?;
        if SAMPLED > GREATEST_SAMPLED_ORDER {
            return Err(Refusal::SampledOrder);
        }
        if SAMPLED >= ORDER {
            return Err(Refusal::FieldOrderNotIncreasing(SAMPLED, ORDER));
        }
        let packing = RadixPacking::new();
        let batch = packing.limbs() * rate;
        if batch > LONGEST_BATCH {
            return Err(Refusal::AbsorbLengthTagOverflow(batch as u64, LONGEST_BATCH as u64));
        }
        Ok(MultiField32Challenger {
            sampled: PhantomData,
            packing,
            sponge,
            pending: Buffer::zeros(0),
            squeeze: Buffer::zeros(0),
        })
    }

    /// Ends the challenger: the rate after a flush, or after a turn if nothing is pending.
    pub fn finalize(self) -> Buffer<ORDER, WIDEST_ROW>
        ensures { items result ≡ final_rate SAMPLED (make_meaning self) (held_in self) }
    {
        let mut last = self;
        last.finish();
        last.sponge.outputs()
    }
}

impl<
    F: Domain<SAMPLED>,
    D: Domain<ORDER>,
    P: CryptographicPermutation<D, ORDER>,
    const SAMPLED: u64,
    const ORDER: u64,
> MultiField32Challenger<F, D, P, SAMPLED, ORDER> {
    /// A flush, or a turn if nothing is pending.
    #[tactic(auto, unfolding(crate::specs::Rules::final_rate, crate::specs::Rules::after_flush))]
    fn finish(&mut self)
        ensures outputs { (held_in self.new).outputs
            ≡ final_rate SAMPLED (make_meaning self.old) (held_in self.old) }
    {
        if self.pending.len() == 0 {
            self.sponge.permute();
            return;
        }
        flush(&self.packing, &mut self.sponge, &mut self.pending);
    }

    /// Flushes what is pending, if there is some.
    #[tactic(auto, unfolding(crate::specs::Rules::after_flush_if_pending, crate::specs::Rules::after_flush))]
    pub(crate) fn flush_if_pending(&mut self)
        ensures state { held_in self.new ≡ after_flush_if_pending SAMPLED (make_meaning self.old)
            (held_in self.old) }
        ensures make { make_of self.new ≡ make_of self.old }
        ensures emptied { items self.new.pending ≡ [] }
    {
        if self.pending.len() == 0 {
            return;
        }
        flush(&self.packing, &mut self.sponge, &mut self.pending);
        self.squeeze.clear();
    }

    /// Fills the squeeze list: every output is split, after a turn if none is left.
    #[tactic(auto, unfolding(crate::specs::Rules::after_fill))]
    fn fill_squeeze_list(&mut self)
        ensures state { held_in self.new ≡ after_fill SAMPLED (make_meaning self.old)
            (held_in self.old) }
        ensures make { make_of self.new ≡ make_of self.old }
        ensures some { 0 < length (items self.new.squeeze) }
    {
        ensure_outputs(&mut self.sponge);
        let digits = self.squeeze_num_f_elms();
        split_all(&mut self.squeeze, &self.sponge.outputs(), digits);
        self.sponge.drop_outputs();
    }

    /// Flushes what is pending, if there is some, and fills an empty squeeze list.
    #[tactic(auto, unfolding(crate::specs::Rules::with_scalar))]
    fn ensure_scalar(&mut self)
        ensures state { held_in self.new ≡ with_scalar SAMPLED (make_meaning self.old)
            (held_in self.old) }
        ensures make { make_of self.new ≡ make_of self.old }
        ensures some { 0 < length (items self.new.squeeze) }
    {
        self.flush_if_pending();
        if self.squeeze.len() == 0 {
            self.fill_squeeze_list();
        }
    }

    /// The last scalar of the squeeze list, which is filled first if it is empty.
    #[tactic(auto, unfolding(crate::specs::Rules::sample_of))]
    pub fn sample(&mut self) -> u64
        ensures does { Does make_of held_in self.old self.new result
            (sample_of SAMPLED (make_meaning self.old) (held_in self.old)) }
        ensures code { result < SAMPLED }
    {
        self.ensure_scalar();
        self.squeeze.pop()
    }

    /// The radix bits: the least number of bits that hold a scalar.
    pub fn absorb_radix_bits(&self) -> u64
        ensures { result ≡ code_bits SAMPLED }
    {
        code_bits(SAMPLED)
    }

    /// The limbs: how many scalars go into a word.
    pub fn absorb_num_f_elms(&self) -> usize
        ensures { result ≡ limbs SAMPLED ORDER }
    {
        self.packing.limbs()
    }

    /// k: how many scalars come out of a word.
    pub fn squeeze_num_f_elms(&self) -> usize
        ensures { result ≡ digits SAMPLED ORDER }
    {
        self.packing.digits()
    }

    /// WIDTH.
    pub fn width(&self) -> usize
        ensures { result ≡ (make_of self.now).width }
    {
        self.sponge.width()
    }

    /// RATE.
    pub fn rate(&self) -> usize
        ensures { result ≡ (make_of self.now).rate }
    {
        self.sponge.rate()
    }

    /// The row, to be read.
    pub fn row(&self) -> &[u64]
        ensures { result.now ≡ (held_in self.now).row }
    {
        self.sponge.row_slice()
    }

    /// The pending scalars, to be read.
    pub fn pending(&self) -> &[u64]
        ensures { result.now ≡ (held_in self.now).pending }
    {
        self.pending.as_slice()
    }

    /// The outputs not yet split, to be read.
    pub fn outputs(&self) -> &[u64]
        ensures { result.now ≡ (held_in self.now).outputs }
    {
        self.sponge.outputs_slice()
    }

    /// The scalars not yet taken, to be read.
    pub fn squeeze(&self) -> &[u64]
        ensures { result.now ≡ (held_in self.now).squeeze }
    {
        self.squeeze.as_slice()
    }
}
