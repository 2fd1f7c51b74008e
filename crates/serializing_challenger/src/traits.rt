// What is held, observing, sampling, where a check starts, and the digest at the end.
ghost use Rattle.byte_transcript.specs.Transcript.{after_observe_bytes};
ghost use Rattle.byte_transcript.specs.Encoding.{encoded_numbers};
ghost use Rattle.serializing_challenger.specs.Rules.{after_observe as after_observe_of, kept_bits};
ghost use Rattle.serializing_challenger.specs.Rules.{drawing as drawing_of};
ghost use Rattle.serializing_challenger.specs.Rules.{sample_of as sample_of_held, uniform_of};
ghost use Rattle.serializing_challenger.specs.RulesProofs.{code_taken};

use crate::SerializingChallenger32;
use crate::challenger::drop_byte;
use byte_transcript::{ByteTranscript, CanFinalizeTranscript, draw_word, observe_numbers};
use challenger_traits::{
    CanFinalizeDigest, CanObserve, CanObserveDigest, CanSample, CanSampleBits,
    CanSampleUniformBits, CanStartCheck, FieldChallenger, Holding, bits_fit,
};
use domain::{Domain, all_codes};
use refusal::Refusal;
use sampling::{CanDraw, is_draw_limit, low_bits};

impl<D: Domain<ORDER>, T: ByteTranscript, const ORDER: u64> Holding
    for SerializingChallenger32<D, T, ORDER> {
    type Make = T::Make;

    type Held = T::Held;

    ghost make = { λ s. T.make s.inner };

    ghost held_value = { λ s. T.held_value s.inner };

    ghost can_be_held = { T.can_be_held };

    ghost holds = { λ s. T.holds s.inner };
}

impl<D: Domain<ORDER>, T: ByteTranscript, const ORDER: u64> CanObserve<u64>
    for SerializingChallenger32<D, T, ORDER> {
    ghost after_observe = { λ k. after_observe_of ORDER (T.meaning k) };

    fn observe(&mut self, codes: &[u64]) -> Result<(), Refusal> {
        if !all_codes::<ORDER>(codes) {
            return Err(Refusal::NotCode);
        }
        observe_numbers(&mut self.inner, codes, 4)
    }
}

impl<D: Domain<ORDER>, T: ByteTranscript, const ORDER: u64> CanObserveDigest<u8>
    for SerializingChallenger32<D, T, ORDER> {
    ghost after_observe_digest = { λ k. after_observe_bytes (T.meaning k) };

    fn observe_digest(&mut self, digest: &[u8]) -> Result<(), Refusal> {
        self.inner.observe_bytes(digest)
    }
}

impl<D: Domain<ORDER>, T: ByteTranscript, const ORDER: u64> CanObserveDigest<u64>
    for SerializingChallenger32<D, T, ORDER> {
    ghost after_observe_digest = { λ k h words. after_observe_bytes (T.meaning k) h
        (encoded_numbers 8 words) };

    // A digest of 64-bit words, each as eight bytes.
    fn observe_digest(&mut self, digest: &[u64]) -> Result<(), Refusal> {
        observe_numbers(&mut self.inner, digest, 8)
    }
}

impl<D: Domain<ORDER>, T: ByteTranscript, const ORDER: u64> CanSample<u64>
    for SerializingChallenger32<D, T, ORDER> {
    /// The draw limit.
    type Given = u64;

    ghost sample_of = { λ k. sample_of_held ORDER (T.meaning k) };

    fn sample(&mut self, limit: u64) -> Result<u64, Refusal> {
        self.sample(limit)
    }
}

impl<D: Domain<ORDER>, T: ByteTranscript, const ORDER: u64> CanSampleBits
    for SerializingChallenger32<D, T, ORDER> {
    ghost drawing = { λ k. drawing_of ORDER (T.meaning k) };

    fn order(&self) -> u64 {
        ORDER
    }

    // Bits are the low ones of a whole word, not of the bits that `draw` keeps.
    fn sample_bits(&mut self, bits: u64) -> Result<u64, Refusal> {
        if !bits_fit(ORDER, bits) {
            return Err(Refusal::Bits);
        }
        Ok(low_bits(draw_word(&mut self.inner) as u64, bits))
    }
}

impl<D: Domain<ORDER>, T: ByteTranscript, const ORDER: u64> CanSampleUniformBits
    for SerializingChallenger32<D, T, ORDER> {
    ghost uniform_bits_of = { λ k. uniform_of ORDER (T.meaning k) };

    // The low bits of one word, once the bits and the draw limit are in order.
    #[tactic(auto, unfolding(crate::specs::Rules::uniform_of))]
    fn sample_uniform_bits(&mut self, bits: u64, limit: u64) -> Result<u64, Refusal> {
        if !bits_fit(ORDER, bits) {
            return Err(Refusal::Bits);
        }
        if !is_draw_limit(limit) {
            return Err(Refusal::DrawLimit);
        }
        self.sample_bits(bits)
    }
}

impl<D: Domain<ORDER>, T: ByteTranscript, const ORDER: u64> FieldChallenger
    for SerializingChallenger32<D, T, ORDER> {}

impl<D: Domain<ORDER>, T: CanFinalizeTranscript, const ORDER: u64> CanFinalizeDigest
    for SerializingChallenger32<D, T, ORDER> {
    type Digest = T::Digest;

    ghost digest_numbers = { T.digest_numbers };

    ghost digest_of = { λ k. (T.meaning k).digest };

    // The digest of the transcript.
    fn finalize(self) -> T::Digest {
        self.inner.finalize()
    }
}

impl<D: Domain<ORDER>, T: ByteTranscript, const ORDER: u64> CanStartCheck
    for SerializingChallenger32<D, T, ORDER> {
    ghost check_start = { λ k. (T.meaning k).after_draw };

    fn start_check(&mut self) {
        drop_byte(&mut self.inner);
    }

    ghost takes_code = { λ k h w ok lt.
        code_taken ORDER (T.meaning k) h w (T.meaning_covers k h ok) lt };
}

impl<D: Domain<ORDER>, T: ByteTranscript, const ORDER: u64> CanDraw
    for SerializingChallenger32<D, T, ORDER> {
    ghost draw_of = { λ k. kept_bits ORDER (T.meaning k) };

    fn draw(&mut self) -> u64 {
        low_bits(draw_word(&mut self.inner) as u64, self.code.bits)
    }
}
