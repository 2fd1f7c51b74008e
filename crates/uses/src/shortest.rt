// The shortest caller.
ghost use Rattle.std.specs.Prelude.{◌≡◌, ◌<◌, IfOk};
ghost use Rattle.challengers.specs.Orders.{BABY_BEAR_ORDER};
ghost use Rattle.uses.specs.Shortest.{first_challenge};

use challengers::{BabyBearDuplex, CanObserve, GrindingChallenger, Ladder, Refusal};

/// Observes a commitment, grinds nine bits and draws a challenge: the witness, and the challenge.
pub fn first_challenge(commitment: &[u64]) -> Result<(u64, u64), Refusal>
    ensures drawn { result ≡ (first_challenge commitment.now).said }
    ensures code { IfOk result (λ drawn. drawn.1 < BABY_BEAR_ORDER) }
{
    let mut c = BabyBearDuplex::<Ladder>::new(16, 8, Ladder::new(8)?)?;
    c.observe(commitment)?;
    let (witness, _) = c.grind(9, 100000)?;
    Ok((witness, c.sample()))
}
