// The calls as values.
ghost use Rattle.sponge.specs.SpongeHeld.{meaning_of_make};
ghost use Rattle.sponge.specs.SameSponge.{SameSponge};
ghost use Rattle.runs.specs.InterfaceProofs.{interface_stands, interface_reads};
ghost use Rattle.multi_field_challenger.specs.Rules.{means as means_of};
ghost use Rattle.multi_field_challenger.specs.Calls.{own_rule as own_rule_of, rule as rule_of};
ghost use Rattle.multi_field_challenger.specs.Calls.{own_reads};
ghost use Rattle.multi_field_challenger.specs.SameProofs.{rules_same};

use crate::MultiField32Challenger;
use challenger_traits::{CanObserveDigest, CanSample};
use domain::Domain;
use permutation::CryptographicPermutation;
use runs::{Answer, Call, CanTakeCalls, HasOwnCalls, MadeLike, call_interface};

impl<
    F: Domain<SAMPLED> + Copy,
    D: Domain<ORDER> + Copy,
    P: CryptographicPermutation<D, ORDER> + Copy,
    const SAMPLED: u64,
    const ORDER: u64,
> HasOwnCalls for MultiField32Challenger<F, D, P, SAMPLED, ORDER> {
    ghost own_rule = { λ m. own_rule_of SAMPLED (meaning_of_make D.arithmetic P.image m) };

    fn own_call(&mut self, call: &Call) -> Answer {
        match call {
            Call::ObserveDigest(words) => self
                .observe_digest(words)
                .map_or_else(Answer::Refused, |()| Answer::Done),
            Call::Sample => CanSample::<u64>::sample(self, ()).map_or_else(
                Answer::Refused,
                Answer::Code,
            ),
            _ => Answer::Absent,
        }
    }
}

impl<
    F: Domain<SAMPLED> + Copy,
    D: Domain<ORDER> + Copy,
    P: CryptographicPermutation<D, ORDER> + Copy,
    const SAMPLED: u64,
    const ORDER: u64,
> CanTakeCalls for MultiField32Challenger<F, D, P, SAMPLED, ORDER> {
    ghost rule = { λ m. rule_of SAMPLED (meaning_of_make D.arithmetic P.image m) };

    ghost stands = { λ m. interface_stands
        (means_of SAMPLED (meaning_of_make D.arithmetic P.image m))
        (own_rule_of SAMPLED (meaning_of_make D.arithmetic P.image m)) };

    ghost reads_numbers = { λ m. interface_reads
        (means_of SAMPLED (meaning_of_make D.arithmetic P.image m))
        (own_rule_of SAMPLED (meaning_of_make D.arithmetic P.image m))
        (own_reads SAMPLED (meaning_of_make D.arithmetic P.image m)) };

    fn call(&mut self, call: &Call) -> Answer {
        call_interface(self, call)
    }
}

// No call reads more of the sampled domain than its order, which both types fix alike.
impl<
    F: Domain<SAMPLED> + Copy,
    D: Domain<ORDER> + Copy,
    P: CryptographicPermutation<D, ORDER> + Copy,
    G: Domain<SAMPLED> + Copy,
    E: Domain<ORDER> + Copy,
    Q: CryptographicPermutation<E, ORDER> + Copy,
    const SAMPLED: u64,
    const ORDER: u64,
> MadeLike<MultiField32Challenger<G, E, Q, SAMPLED, ORDER>>
    for MultiField32Challenger<F, D, P, SAMPLED, ORDER> {
    ghost same_meaning = { λ k l. SameSponge (meaning_of_make D.arithmetic P.image k)
        (meaning_of_make E.arithmetic Q.image l) };

    ghost same_rules = { λ k l same. rules_same SAMPLED F.arithmetic.low
        (meaning_of_make D.arithmetic P.image k) (meaning_of_make E.arithmetic Q.image l) same
        (P.lawful k.permutation) };
}
