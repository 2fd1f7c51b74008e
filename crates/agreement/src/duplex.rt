// Duplex challengers.
ghost use Rattle.std.specs.Prelude.{◌≡◌};
ghost use Rattle.refusal.specs.Made.{MadeUnless};
ghost use Rattle.sponge.specs.SpongeHeld.{shape_no, parameters_of, meaning_of_make};
ghost use Rattle.sponge.specs.SameSponge.{SameSponge};
ghost use Rattle.permutation.specs.Choice.{image as image_of};
ghost use Rattle.duplex_challenger.specs.Rules.{fresh_value};
ghost use Rattle.duplex_challenger.specs.Holds.{IsFresh, make, held_value, make_meaning};
ghost use Rattle.duplex_challenger.specs.Calls.{rule};
ghost use Rattle.agreement.specs.Ends.{Agreed, AgreeIfPlayed, PlayedIfPlaces, slices, SlicesStay};

use crate::ends::play;
use crate::{Ends, Rehearsal};
use domain::Domain;
use duplex_challenger::DuplexChallenger;
use permutation::{CryptographicPermutation, Permutation};
use refusal::Refusal;
use runs::{Answer, Call};

/// Both ends as duplex challengers, made from the same WIDTH, RATE and permutation.
pub fn duplex_ends<D: Domain<ORDER>, const ORDER: u64>(
    width: usize,
    rate: usize,
    permutation: Permutation,
) -> Result<Ends<DuplexChallenger<D, Permutation, ORDER>>, Refusal>
    ensures { MadeUnless (shape_no width rate) (λ ends. IsFresh width rate permutation ends.prover
        × IsFresh width rate permutation ends.verifier) result }
{
    let prover = DuplexChallenger::new(width, rate, permutation)?;
    let verifier = DuplexChallenger::new(width, rate, permutation)?;
    Ok(Ends { prover, verifier })
}

/// Makes both ends and plays the calls on both: the prover's answers go into `proved`, the verifier's into `said`.
pub fn agree_duplex<D: Domain<ORDER> + Copy, const ORDER: u64>(
    width: usize,
    rate: usize,
    permutation: Permutation,
    calls: &[Call],
    proved: &mut [Answer],
    said: &mut [Answer],
) -> Result<Rehearsal<DuplexChallenger<D, Permutation, ORDER>>, Refusal>
    ensures agreed { MadeUnless (shape_no width rate) (Agreed make held_value
        (λ m. rule (meaning_of_make D.arithmetic (image_of D.arithmetic) m))
        (λ m. fresh_value (meaning_of_make D.arithmetic (image_of D.arithmetic) m))
        (parameters_of width rate permutation) calls.now (slices proved.old said.old)
        (slices proved.new said.new)) result }
    ensures kept { SlicesStay (slices proved.old said.old) (slices proved.new said.new) result }
{
    let mut ends = duplex_ends::<D, ORDER>(width, rate, permutation)?;
    let count = agree_duplex_of_one_make(&mut ends.prover, &mut ends.verifier, calls, proved, said);
    Ok(Rehearsal { ends, count })
}

/// Plays the calls on two duplex challengers, as `runs::agree` does.
pub fn agree_duplex_of_one_make<
    D: Domain<ORDER> + Copy,
    P: CryptographicPermutation<D, ORDER> + Copy,
    E: Domain<ORDER> + Copy,
    Q: CryptographicPermutation<E, ORDER> + Copy,
    const ORDER: u64,
>(
    prover: &mut DuplexChallenger<D, P, ORDER>,
    verifier: &mut DuplexChallenger<E, Q, ORDER>,
    calls: &[Call],
    proved: &mut [Answer],
    said: &mut [Answer],
) -> Option<usize>
    ensures agreement { SameSponge (make_meaning prover.old) (make_meaning verifier.old)
        → held_value prover.old ≡ held_value verifier.old
        → AgreeIfPlayed (held_value prover.old) (held_value verifier.old)
        (held_value prover.new) (held_value verifier.new) calls.now
        (slices proved.new said.new) result }
    ensures played { PlayedIfPlaces (rule (make_meaning prover.old))
        (rule (make_meaning verifier.old)) (held_value prover.old)
        (held_value verifier.old) (held_value prover.new) (held_value verifier.new) calls.now
        (slices proved.old said.old) (slices proved.new said.new) result }
    ensures makes { (make prover.new ≡ make prover.old)
        × (make verifier.new ≡ make verifier.old) }
{
    play(prover, verifier, calls, proved, said)
}
