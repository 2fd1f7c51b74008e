// The calls as values.
ghost use Rattle.hasher.specs.SameDigests.{SameDigests};
ghost use Rattle.hash_challenger.specs.Calls.{rule as rule_of, stands as checks_stand};
ghost use Rattle.hash_challenger.specs.Calls.{reads as reads_of};
ghost use Rattle.hash_challenger.specs.SameProofs.{rules_same};

use crate::HashChallenger;
use challenger_traits::{CanObserve, CanObserveDigest, CanSample};
use hasher::CryptographicHasher;
use runs::{Answer, Call, CanTakeCalls, MadeLike};

impl<H: CryptographicHasher<N>, const N: usize> CanTakeCalls for HashChallenger<H, N> {
    ghost rule = { λ h. rule_of (H.digest h) };

    ghost stands = { λ h. checks_stand (H.digest h) };

    ghost reads_numbers = { λ h. reads_of (H.digest h) };

    fn call(&mut self, call: &Call) -> Answer {
        match call {
            Call::ObserveBytes(bytes) => self
                .observe(bytes)
                .map_or_else(Answer::Refused, |()| Answer::Done),
            Call::ObserveDigestBytes(bytes) => self
                .observe_digest(bytes)
                .map_or_else(Answer::Refused, |()| Answer::Done),
            Call::Sample => CanSample::<u8>::sample(self, ()).map_or_else(
                Answer::Refused,
                |byte| Answer::Code(byte as u64),
            ),
            _ => Answer::Absent,
        }
    }
}

impl<H: CryptographicHasher<N>, I: CryptographicHasher<M>, const N: usize, const M: usize> MadeLike<
    HashChallenger<I, M>,
> for HashChallenger<H, N> {
    ghost same_meaning = { λ h i. SameDigests (H.digest h) (I.digest i) };

    ghost same_rules = { λ h i same. rules_same (H.digest h) (I.digest i) same };
}
