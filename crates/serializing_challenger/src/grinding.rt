// Checking and grinding.
ghost use Rattle.std.specs.Prelude.{◌≡◌, IfErr};
ghost use Rattle.challenger_traits.specs.Meaning.{Does};
ghost use Rattle.challenger_traits.specs.Grinding.{check_of, CheckRefused};
ghost use Rattle.serializing_challenger.specs.Rules.{means};

use crate::SerializingChallenger32;
use crate::challenger::drop_byte;
use byte_transcript::{ByteGrindingChallenger, ByteTranscript, draw_word, observe_numbers};
use challenger_traits::{GrindingChallenger, bits_fit};
use domain::Domain;
use refusal::Refusal;
use sampling::{low_bits, power};

impl<D: Domain<ORDER>, T: ByteTranscript, const ORDER: u64> SerializingChallenger32<D, T, ORDER> {
    // Works on the transcript itself, where `check_by_parts` makes a copy: after the dropped byte nothing can be refused.
    /// Draws a byte and drops it, observes the witness, and says whether the bits drawn then are 0.
    #[tactic(auto, unfolding(challenger_traits::specs::Grinding::check_of))]
    pub(crate) fn check(&mut self, bits: u64, witness: u64) -> Result<bool, Refusal>
        ensures does { Does (λ s. T.make s.inner) (λ s. T.held_value s.inner) self.old self.new
            result (check_of (means ORDER (T.meaning (T.make self.old.inner)))
            (T.held_value self.old.inner) bits witness) }
        ensures refusals { IfErr result (CheckRefused ORDER bits witness) }
    {
        if !bits_fit(ORDER, bits) {
            return Err(Refusal::Bits);
        }
        if bits == 0 {
            return Ok(true);
        }
        if witness >= ORDER {
            return Err(Refusal::NotCode);
        }
        drop_byte(&mut self.inner);
        let _ = observe_numbers(&mut self.inner, &[witness], 4);
        Ok(low_bits(draw_word(&mut self.inner) as u64, bits) == 0)
    }
}

impl<D: Domain<ORDER> + Copy, T: ByteGrindingChallenger + Copy, const ORDER: u64> GrindingChallenger
    for SerializingChallenger32<D, T, ORDER> {
    fn check_witness(&mut self, bits: u64, witness: u64) -> Result<bool, Refusal> {
        self.check(bits, witness)
    }

    // The transcript searches, by its own `find_witness`, from where a check of it starts.
    #[tactic(auto, unfolding(challenger_traits::specs::Grinding::grind_of, challenger_traits::specs::Grinding::check_of))]
    fn grind(&mut self, bits: u64, budget: u64) -> Result<(u64, u64), Refusal> {
        if !bits_fit(ORDER, bits) {
            return Err(Refusal::Bits);
        }
        if bits == 0 {
            return Ok((0, 0));
        }
        if budget > ORDER {
            return Err(Refusal::Budget);
        }
        let mut started = self.inner;
        drop_byte(&mut started);
        let Some(witness) = started.find_witness(budget, power(bits) - 1) else {
            return Err(Refusal::NoWitness(budget));
        };
        let _ = self.check(bits, witness);
        Ok((witness, witness + 1))
    }
}
