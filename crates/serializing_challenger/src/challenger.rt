// The challenger and its single calls.
ghost use Rattle.std.specs.Prelude.{◌≡◌, ◌<◌, ◌≤◌, IfOk};
ghost use Rattle.refusal.specs.Made.{MadeUnless};
ghost use Rattle.challenger_traits.specs.Meaning.{Does};
ghost use Rattle.serializing_challenger.specs.Rules.{order_no, sample_of};

use crate::{CodeBits, SerializingChallenger32};
use byte_transcript::ByteTranscript;
use code_bits::code_bits;
use domain::Domain;
use refusal::Refusal;
use refusal::limits::GREATEST_SAMPLED_ORDER;
use sampling::{draw_below, is_draw_limit};
use std::marker::PhantomData;

// The dropped byte makes room: after a draw eight bytes fit, so the four of a witness do, and a check is never refused once something has moved.
/// Draws a byte and drops it.
pub(crate) fn drop_byte<T: ByteTranscript>(transcript: &mut T)
    ensures left { T.held_value transcript.new
        ≡ (T.meaning (T.make transcript.old)).after_draw (T.held_value transcript.old) }
    ensures kept { T.make transcript.new ≡ T.make transcript.old }
    ensures roomy { 8 ≤ (T.meaning (T.make transcript.old)).room
        ((T.meaning (T.make transcript.old)).after_draw (T.held_value transcript.old)) }
{
    let _ = transcript.sample_byte();
}

impl<D: Domain<ORDER>, T: ByteTranscript + Drop, const ORDER: u64> SerializingChallenger32<
    D,
    T,
    ORDER,
> {
    /// A challenger over a transcript, as it stands; refused if the order is above `GREATEST_SAMPLED_ORDER`.
    pub fn new(inner: T) -> Result<Self, Refusal>
        ensures { MadeUnless (order_no ORDER) (λ made. made.inner ≡ inner) result }
    {
        if ORDER > GREATEST_SAMPLED_ORDER {
            return Err(Refusal::SampledOrder);
        }
        let bits = code_bits(ORDER);
        Ok(SerializingChallenger32 {
            domain: PhantomData,
            inner,
            code: CodeBits { bits },
        })
    }
}

impl<D: Domain<ORDER>, T: ByteTranscript, const ORDER: u64> SerializingChallenger32<D, T, ORDER> {
    // The transcript's make and held value are spelled out: the type of the struct does not tell what `T` means.
    /// A code: words are drawn until the kept bits of one are a code, within the draw limit.
    #[tactic(auto, unfolding(crate::specs::Rules::sample_of))]
    pub fn sample(&mut self, limit: u64) -> Result<u64, Refusal>
        ensures does { Does (λ s. T.make s.inner) (λ s. T.held_value s.inner) self.old self.new
            result (sample_of ORDER (T.meaning (T.make self.old.inner))
            (T.held_value self.old.inner) limit) }
        ensures code { IfOk result (λ value. value < ORDER) }
    {
        if !is_draw_limit(limit) {
            return Err(Refusal::DrawLimit);
        }
        draw_below(self, ORDER, limit - 1).map_err(|(value, bound)| Refusal::ResamplingError(
            value, bound,
        ))
    }

    /// The transcript below, to be read.
    pub fn inner(&self) -> &T
        ensures { result.now ≡ self.now.inner }
    {
        &self.inner
    }
}
