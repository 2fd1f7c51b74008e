// Multi-field challengers.
ghost use Rattle.std.specs.Prelude.{◌≡◌};
ghost use Rattle.refusal.specs.Made.{MadeUnless};
ghost use Rattle.sponge.specs.SpongeHeld.{parameters_of, meaning_of_make};
ghost use Rattle.sponge.specs.SameSponge.{SameSponge};
ghost use Rattle.permutation.specs.Choice.{image as image_of};
ghost use Rattle.multi_field_challenger.specs.Rules.{fresh_value};
ghost use Rattle.multi_field_challenger.specs.Holds.{first_no, IsFresh, make, held_value};
ghost use Rattle.multi_field_challenger.specs.Holds.{make_meaning};
ghost use Rattle.multi_field_challenger.specs.Calls.{rule};
ghost use Rattle.agreement.specs.Ends.{Agreed, AgreeIfPlayed, PlayedIfPlaces, slices, SlicesStay};

use crate::ends::play;
use crate::{Ends, Rehearsal};
use domain::Domain;
use multi_field_challenger::MultiField32Challenger;
use permutation::{CryptographicPermutation, Permutation};
use refusal::Refusal;
use runs::{Answer, Call};

/// Both ends as multi-field challengers, made from the same WIDTH, RATE and permutation.
pub fn multi_field_ends<F: Domain<SAMPLED>, D: Domain<ORDER>, const SAMPLED: u64, const ORDER: u64>(
    width: usize,
    rate: usize,
    permutation: Permutation,
) -> Result<Ends<MultiField32Challenger<F, D, Permutation, SAMPLED, ORDER>>, Refusal>
    ensures { MadeUnless (first_no SAMPLED ORDER width rate)
        (λ ends. IsFresh width rate permutation ends.prover
        × IsFresh width rate permutation ends.verifier) result }
{
    let prover = MultiField32Challenger::new(width, rate, permutation)?;
    let verifier = MultiField32Challenger::new(width, rate, permutation)?;
    Ok(Ends { prover, verifier })
}

/// Makes both ends and plays the calls on both: the prover's answers go into `proved`, the verifier's into `said`.
pub fn agree_multi_field<
    F: Domain<SAMPLED> + Copy,
    D: Domain<ORDER> + Copy,
    const SAMPLED: u64,
    const ORDER: u64,
>(
    width: usize,
    rate: usize,
    permutation: Permutation,
    calls: &[Call],
    proved: &mut [Answer],
    said: &mut [Answer],
) -> Result<Rehearsal<MultiField32Challenger<F, D, Permutation, SAMPLED, ORDER>>, Refusal>
    ensures agreed { MadeUnless (first_no SAMPLED ORDER width rate) (Agreed make held_value
        (λ m. rule SAMPLED (meaning_of_make D.arithmetic (image_of D.arithmetic) m))
        (λ m. fresh_value SAMPLED (meaning_of_make D.arithmetic (image_of D.arithmetic) m))
        (parameters_of width rate permutation) calls.now (slices proved.old said.old)
        (slices proved.new said.new)) result }
    ensures kept { SlicesStay (slices proved.old said.old) (slices proved.new said.new) result }
{
    let mut ends = multi_field_ends::<F, D, SAMPLED, ORDER>(width, rate, permutation)?;
    let count = agree_multi_field_of_one_make(
        &mut ends.prover,
        &mut ends.verifier,
        calls,
        proved,
        said,
    );
    Ok(Rehearsal { ends, count })
}

/// Plays the calls on two multi-field challengers.
pub fn agree_multi_field_of_one_make<
    F: Domain<SAMPLED> + Copy,
    D: Domain<ORDER> + Copy,
    P: CryptographicPermutation<D, ORDER> + Copy,
    G: Domain<SAMPLED> + Copy,
    E: Domain<ORDER> + Copy,
    Q: CryptographicPermutation<E, ORDER> + Copy,
    const SAMPLED: u64,
    const ORDER: u64,
>(
    prover: &mut MultiField32Challenger<F, D, P, SAMPLED, ORDER>,
    verifier: &mut MultiField32Challenger<G, E, Q, SAMPLED, ORDER>,
    calls: &[Call],
    proved: &mut [Answer],
    said: &mut [Answer],
) -> Option<usize>
    ensures agreement { SameSponge (make_meaning prover.old) (make_meaning verifier.old)
        → held_value prover.old ≡ held_value verifier.old
        → AgreeIfPlayed (held_value prover.old) (held_value verifier.old)
        (held_value prover.new) (held_value verifier.new) calls.now
        (slices proved.new said.new) result }
    ensures played { PlayedIfPlaces (rule SAMPLED (make_meaning prover.old))
        (rule SAMPLED (make_meaning verifier.old)) (held_value prover.old)
        (held_value verifier.old) (held_value prover.new) (held_value verifier.new) calls.now
        (slices proved.old said.old) (slices proved.new said.new) result }
    ensures makes { (make prover.new ≡ make prover.old)
        × (make verifier.new ≡ make verifier.old) }
{
    play(prover, verifier, calls, proved, said)
}
