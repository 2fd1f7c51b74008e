// Calls as values, played on both ends.
ghost use Rattle.std.specs.Prelude.{IsOk, IfOk};
ghost use Rattle.challengers.specs.SpongeHeld.{parameters_of};
ghost use Rattle.challengers.specs.DuplexRules.{fresh_value};
ghost use Rattle.challengers.specs.DuplexHolds.{make, held_value};
ghost use Rattle.challengers.specs.DuplexCalls.{rule};
ghost use Rattle.challengers.specs.Ends.{Agreed, slices};
ghost use Rattle.uses.specs.BabyBear.{baby_bear_sponge, baby_bear_ladder};

use challengers::{
    Answer, BABY_BEAR_ORDER, BabyBear, BabyBearDuplex, Call, Ends, Ladder, Permutation, Refusal,
    Rehearsal, agree_duplex, agree_duplex_of_one_make,
};

/// Plays the calls on a prover and a verifier: each call is answered alike, and the check of each witness that was found says yes.
pub fn play_both(
    permutation: Permutation,
    calls: &[Call],
    proved: &mut [Answer],
    said: &mut [Answer],
) -> Result<Rehearsal<BabyBearDuplex<Permutation>>, Refusal>
    ensures made { IsOk result }
    ensures agreed { IfOk result (Agreed make held_value (λ m. rule (baby_bear_sponge m))
        (λ m. fresh_value (baby_bear_sponge m)) (parameters_of 16 8 permutation) calls.now
        (slices proved.old said.old) (slices proved.new said.new)) }
{
    agree_duplex::<BabyBear, BABY_BEAR_ORDER>(16, 8, permutation, calls, proved, said)
}

/// The same over another type than `Permutation`: both ends are made here, and the calls are played on them as they are.
pub fn play_both_under_ladder(
    ladder: Ladder,
    calls: &[Call],
    proved: &mut [Answer],
    said: &mut [Answer],
) -> Result<Rehearsal<BabyBearDuplex<Ladder>>, Refusal>
    ensures made { IsOk result }
    ensures agreed { IfOk result (Agreed make held_value (λ m. rule (baby_bear_ladder m))
        (λ m. fresh_value (baby_bear_ladder m)) (parameters_of 16 8 ladder) calls.now
        (slices proved.old said.old) (slices proved.new said.new)) }
{
    let mut prover = BabyBearDuplex::<Ladder>::new(16, 8, ladder)?;
    let mut verifier = BabyBearDuplex::<Ladder>::new(16, 8, ladder)?;
    let count = agree_duplex_of_one_make(&mut prover, &mut verifier, calls, proved, said);
    Ok(Rehearsal {
        ends: Ends { prover, verifier },
        count,
    })
}
