// The calls as values.
ghost use Rattle.byte_transcript.specs.SameTranscript.{SameTranscript};
ghost use Rattle.serializing_challenger.specs.Calls.{own_rule as own_rule_of, rule as rule_of};
ghost use Rattle.serializing_challenger.specs.CallsProofs.{stands as checks_stand};
ghost use Rattle.serializing_challenger.specs.CallsProofs.{reads as reads_lists};
ghost use Rattle.serializing_challenger.specs.CallsProofs.{same_rules as rules_same};

use crate::SerializingChallenger32;
use byte_transcript::ByteGrindingChallenger;
use challenger_traits::{CanObserveDigest, CanSample, CanSampleUniformBits, Holding};
use domain::Domain;
use runs::{Answer, Call, CanTakeCalls, HasOwnCalls, MadeLike, call_interface};

impl<D: Domain<ORDER> + Copy, T: ByteGrindingChallenger + Copy, const ORDER: u64> HasOwnCalls
    for SerializingChallenger32<D, T, ORDER> {
    ghost own_rule = { λ k. own_rule_of ORDER (T.meaning k) };

    fn own_call(&mut self, call: &Call) -> Answer {
        match call {
            Call::ObserveDigestBytes(bytes) => self
                .observe_digest(bytes)
                .map_or_else(Answer::Refused, |()| Answer::Done),
            Call::ObserveDigestWords(words) => self
                .observe_digest(words)
                .map_or_else(Answer::Refused, |()| Answer::Done),
            Call::SampleWithin(limit) => CanSample::<u64>::sample(self, *limit).map_or_else(
                Answer::Refused,
                Answer::Code,
            ),
            Call::UniformBits(bits, limit) => self
                .sample_uniform_bits(*bits, *limit)
                .map_or_else(Answer::Refused, Answer::Bits),
            _ => Answer::Absent,
        }
    }
}

impl<D: Domain<ORDER> + Copy, T: ByteGrindingChallenger + Copy, const ORDER: u64> CanTakeCalls
    for SerializingChallenger32<D, T, ORDER> {
    ghost rule = { λ k. rule_of ORDER (T.meaning k) };

    ghost stands = { λ k. checks_stand ORDER (T.meaning k) };

    ghost reads_numbers = { λ k. reads_lists ORDER (T.meaning k) };

    fn call(&mut self, call: &Call) -> Answer {
        call_interface(self, call)
    }
}

impl<
    D: Domain<ORDER> + Copy,
    T: ByteGrindingChallenger + Copy,
    E: Domain<ORDER> + Copy,
    U: ByteGrindingChallenger + Holding<Held = T::Held> + Copy,
    const ORDER: u64,
> MadeLike<SerializingChallenger32<E, U, ORDER>> for SerializingChallenger32<D, T, ORDER> {
    // The order is of the type; all else that making fixes is the transcript's.
    ghost same_meaning = { λ k l. SameTranscript (T.meaning k) (U.meaning l) };

    ghost same_rules = { λ k l same h c ok.
        rules_same ORDER (T.meaning k) (U.meaning l) (T.stays_held k) same h c
        (T.meaning_covers k h ok) };
}
