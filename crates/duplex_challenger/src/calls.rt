// The calls as values.
ghost use Rattle.sponge.specs.SpongeHeld.{meaning_of_make};
ghost use Rattle.sponge.specs.SameSponge.{SameSponge};
ghost use Rattle.runs.specs.InterfaceProofs.{interface_stands, interface_reads};
ghost use Rattle.duplex_challenger.specs.Rules.{means};
ghost use Rattle.duplex_challenger.specs.Calls.{own_rule as own_rule_of, rule as rule_of};
ghost use Rattle.duplex_challenger.specs.Calls.{own_reads};
ghost use Rattle.duplex_challenger.specs.SameProofs.{rules_same};

use crate::DuplexChallenger;
use challenger_traits::{CanObserveDigest, CanSample, CanSampleUniformBits};
use domain::Domain;
use permutation::CryptographicPermutation;
use runs::{Answer, Call, CanTakeCalls, HasOwnCalls, MadeLike, call_interface};

impl<
    D: Domain<ORDER> + Copy,
    P: CryptographicPermutation<D, ORDER> + Copy,
    const ORDER: u64,
> HasOwnCalls for DuplexChallenger<D, P, ORDER> {
    ghost own_rule = { λ m. own_rule_of (meaning_of_make D.arithmetic P.image m) };

    fn own_call(&mut self, call: &Call) -> Answer {
        match call {
            Call::ObserveDigest(codes) => self
                .observe_digest(codes)
                .map_or_else(Answer::Refused, |()| Answer::Done),
            Call::ObserveBytes(bytes) | Call::ObserveDigestBytes(bytes) => {
                self.observe_byte_codes(bytes);
                Answer::Done
            }
            Call::Sample => CanSample::<u64>::sample(self, ()).map_or_else(
                Answer::Refused,
                Answer::Code,
            ),
            Call::UniformBits(bits, limit) => self
                .sample_uniform_bits(*bits, *limit)
                .map_or_else(Answer::Refused, Answer::Bits),
            _ => Answer::Absent,
        }
    }
}

impl<
    D: Domain<ORDER> + Copy,
    P: CryptographicPermutation<D, ORDER> + Copy,
    const ORDER: u64,
> CanTakeCalls for DuplexChallenger<D, P, ORDER> {
    ghost rule = { λ m. rule_of (meaning_of_make D.arithmetic P.image m) };

    ghost stands = { λ m. interface_stands (means (meaning_of_make D.arithmetic P.image m))
        (own_rule_of (meaning_of_make D.arithmetic P.image m)) };

    ghost reads_numbers = { λ m. interface_reads (means (meaning_of_make D.arithmetic P.image m))
        (own_rule_of (meaning_of_make D.arithmetic P.image m))
        (own_reads (meaning_of_make D.arithmetic P.image m)) };

    fn call(&mut self, call: &Call) -> Answer {
        call_interface(self, call)
    }
}

impl<
    D: Domain<ORDER> + Copy,
    P: CryptographicPermutation<D, ORDER> + Copy,
    E: Domain<ORDER> + Copy,
    Q: CryptographicPermutation<E, ORDER> + Copy,
    const ORDER: u64,
> MadeLike<DuplexChallenger<E, Q, ORDER>> for DuplexChallenger<D, P, ORDER> {
    ghost same_meaning = { λ m n. SameSponge (meaning_of_make D.arithmetic P.image m)
        (meaning_of_make E.arithmetic Q.image n) };

    ghost same_rules = { λ m n same. rules_same (meaning_of_make D.arithmetic P.image m)
        (meaning_of_make E.arithmetic Q.image n) same (P.lawful m.permutation) };
}
