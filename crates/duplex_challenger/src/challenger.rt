// The challenger and its single calls.
ghost use Rattle.std.specs.Prelude.{◌≡◌, ◌<◌, ◌≤◌, [], length, IsTrue};
ghost use Rattle.refusal.specs.Made.{MadeUnless};
ghost use Rattle.domain.specs.Codes.{all_codes};
ghost use Rattle.buffer.specs.Items.{items};
ghost use Rattle.challenger_traits.specs.Meaning.{Does};
ghost use Rattle.sponge.specs.SpongeHeld.{shape_no, held_value as sponge_held};
ghost use Rattle.sponge.specs.SpongeHeld.{make_meaning as sponge_make_meaning, SameMake};
ghost use Rattle.sponge.specs.Sponge.{after_turn as sponge_after_turn};
ghost use Rattle.challenger_traits.specs.Observing.{after_codes};
ghost use Rattle.duplex_challenger.specs.Rules.{after_code as after_code_of};
ghost use Rattle.duplex_challenger.specs.Rules.{with_output, sample_of, final_rate};
ghost use Rattle.duplex_challenger.specs.Holds.{held_value as held_in, make as make_of};
ghost use Rattle.duplex_challenger.specs.Holds.{make_meaning, IsFresh};

use crate::DuplexChallenger;
use buffer::Buffer;
use challenger_traits::CanObserveCode;
use domain::Domain;
use permutation::CryptographicPermutation;
use refusal::Refusal;
use refusal::limits::WIDEST_ROW;
use sponge::Sponge;

/// One turn: what is pending is absorbed, if there is some, and the row is permuted.
pub(crate) fn turn<D: Domain<ORDER>, P: CryptographicPermutation<D, ORDER>, const ORDER: u64>(
    sponge: &mut Sponge<D, P, ORDER>,
    pending: &mut Buffer<ORDER, WIDEST_ROW>,
)
    requires room { length (items pending.old) ≤ sponge.old.rate }
    ensures state { sponge_held sponge.new ≡ sponge_after_turn (sponge_make_meaning sponge.old)
        (sponge_held sponge.old).row (items pending.old) }
    ensures emptied { items pending.new ≡ [] }
    ensures make { SameMake sponge.new sponge.old }
    ensures full { length (sponge_held sponge.new).outputs ≡ sponge.old.rate }
{
    sponge.turn(pending);
    pending.clear();
}

impl<
    D: Domain<ORDER>,
    P: CryptographicPermutation<D, ORDER> + Drop,
    const ORDER: u64,
> DuplexChallenger<D, P, ORDER> {
    /// A fresh challenger; refused if RATE is 0 or not below WIDTH, or WIDTH is above `WIDEST_ROW`.
    pub fn new(width: usize, rate: usize, permutation: P) -> Result<Self, Refusal>
        ensures { MadeUnless (shape_no width rate) (IsFresh width rate permutation) result }
    {
        let sponge = Sponge::new(width, rate, permutation)?;
        Ok(DuplexChallenger {
            sponge,
            pending: Buffer::zeros(0),
        })
    }

    /// Ends the challenger: the rate after one more turn.
    pub fn finalize(self) -> Buffer<ORDER, WIDEST_ROW>
        ensures { items result ≡ final_rate (make_meaning self) (held_in self) }
    {
        let mut last = self;
        last.finish();
        last.sponge.outputs()
    }
}

impl<D: Domain<ORDER>, P: CryptographicPermutation<D, ORDER>, const ORDER: u64> DuplexChallenger<
    D,
    P,
    ORDER,
> {
    /// One more turn, after which the outputs are the digest.
    #[tactic(auto, unfolding(crate::specs::Rules::after_turn))]
    fn finish(&mut self)
        ensures { (held_in self.new).outputs ≡ final_rate (make_meaning self.old)
            (held_in self.old) }
    {
        turn(&mut self.sponge, &mut self.pending);
    }

    // Bytes are codes of every domain, so nothing is refused.
    /// Observes bytes in turn, as codes.
    pub fn observe_byte_codes(&mut self, bytes: &[u8])
        ensures state { held_in self.new ≡ after_codes (after_code_of (make_meaning self.old))
            (held_in self.old) bytes.now }
        ensures codes { IsTrue (all_codes ORDER bytes.now) }
        ensures make { make_of self.new ≡ make_of self.old }
    {
        for b in bytes {
            self.observe_code(*b as u64);
        }
    }

    /// Turns, if codes are pending or no output is left.
    #[tactic(auto, unfolding(crate::specs::Rules::with_output, crate::specs::Rules::after_turn))]
    fn ensure_output(&mut self)
        ensures state { held_in self.new ≡ with_output (make_meaning self.old) (held_in self.old) }
        ensures make { make_of self.new ≡ make_of self.old }
        ensures some { 0 < length (held_in self.new).outputs }
    {
        if self.pending.len() == 0 && self.sponge.outputs_left() > 0 {
            return;
        }
        turn(&mut self.sponge, &mut self.pending);
    }

    /// The last output, after a turn if codes are pending or no output is left.
    #[tactic(auto, unfolding(crate::specs::Rules::sample_of))]
    pub fn sample(&mut self) -> u64
        ensures does { Does make_of held_in self.old self.new result
            (sample_of (make_meaning self.old) (held_in self.old)) }
        ensures code { result < ORDER }
    {
        self.ensure_output();
        self.sponge.pop_output()
    }

    /// WIDTH.
    pub fn width(&self) -> usize
        ensures { result ≡ (make_of self.now).width }
    {
        self.sponge.width()
    }

    /// RATE.
    pub fn rate(&self) -> usize
        ensures { result ≡ (make_of self.now).rate }
    {
        self.sponge.rate()
    }

    /// The row, to be read.
    pub fn row(&self) -> &[u64]
        ensures { result.now ≡ (held_in self.now).row }
    {
        self.sponge.row_slice()
    }

    /// The pending codes, to be read.
    pub fn pending(&self) -> &[u64]
        ensures { result.now ≡ (held_in self.now).pending }
    {
        self.pending.as_slice()
    }

    /// The outputs not yet taken, to be read.
    pub fn outputs(&self) -> &[u64]
        ensures { result.now ≡ (held_in self.now).outputs }
    {
        self.sponge.outputs_slice()
    }
}
