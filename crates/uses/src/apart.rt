// Two challengers or two sponges made alike, each given a block or none: unlike blocks leave them with unlike rows.
ghost use Rattle.std.specs.Prelude.{◌≡◌, ◌&&◌, ◌≢◌, if◌then◌else◌, IsTrue, IsOk, IfOk};
ghost use Rattle.challengers.specs.Orders.{BABY_BEAR_ORDER, GOLDILOCKS_ORDER};
ghost use Rattle.challengers.specs.SpongeHeld.{parameters_of, make as sponge_make};
ghost use Rattle.challengers.specs.SpongeHeld.{held_value as sponge_held};
ghost use Rattle.challengers.specs.DuplexHolds.{make as duplex_make, held_value as duplex_held};
ghost use Rattle.challengers.specs.MultiFieldHolds.{make as multi_make, held_value as multi_held};
ghost use Rattle.challengers.specs.SeparationBlocks.{numbers_of, is_turn};
ghost use Rattle.challengers.specs.Separation.{AreUnlike};
ghost use Rattle.challengers.specs.Given.{is_duplex_turn, is_multi_turn};
ghost use Rattle.uses.specs.Apart.{made_duplex, given_duplex, made_multi, given_multi};
ghost use Rattle.uses.specs.Apart.{made_sponge, turned_sponge};

use challengers::{
    BABY_BEAR_ORDER, BabyBear, BabyBearDuplex, BabyBearInGoldilocks, Block, GOLDILOCKS_ORDER,
    Goldilocks, Permutation, Refusal, Sponge, duplex_ends, multi_field_ends, observe_both_duplex,
    observe_both_multi_field, turn_both,
};

/// Two challengers or sponges, and whether both were given what was meant for them.
#[derive(Clone, Copy)]
pub struct Pair<C> {
    pub first: C,
    pub second: C,
    pub given: bool,
}

/// Makes two duplex challengers alike and gives them `left` and `right`, a block of codes or none; they stay as made if one of the two is neither.
pub fn give_both_duplex(
    permutation: Permutation,
    left: Option<Block>,
    right: Option<Block>,
) -> Result<Pair<BabyBearDuplex<Permutation>>, Refusal>
    ensures made { IsOk result }
    ensures answer { IfOk result (λ p. p.given ≡ (is_duplex_turn BABY_BEAR_ORDER 8
        (numbers_of left.entry) && is_duplex_turn BABY_BEAR_ORDER 8 (numbers_of right.entry))) }
    ensures apart { IfOk result (λ p. IsTrue p.given
        → AreUnlike (numbers_of left.entry) (numbers_of right.entry)
        → (duplex_held p.first).row ≢ (duplex_held p.second).row) }
    ensures first { IfOk result (λ p. duplex_held p.first ≡ (if p.given
        then given_duplex permutation (numbers_of left.entry) else made_duplex permutation)) }
    ensures second { IfOk result (λ p. duplex_held p.second ≡ (if p.given
        then given_duplex permutation (numbers_of right.entry) else made_duplex permutation)) }
    ensures makes { IfOk result (λ p. (duplex_make p.first ≡ parameters_of 16 8 permutation)
        × (duplex_make p.second ≡ parameters_of 16 8 permutation)) }
{
    let mut ends = duplex_ends::<BabyBear, BABY_BEAR_ORDER>(16, 8, permutation)?;
    let given = observe_both_duplex(&mut ends.prover, &mut ends.verifier, left, right);
    Ok(Pair {
        first: ends.prover,
        second: ends.verifier,
        given,
    })
}

/// Makes two multi-field challengers alike and gives them `left` and `right`, a block of scalars or of words, or none; they stay as made if one of the two is neither.
#[tactic(auto, using(crate::proofs::Usual::no_question_failed))]
pub fn give_both_multi_field(
    permutation: Permutation,
    left: Option<Block>,
    right: Option<Block>,
) -> Result<Pair<BabyBearInGoldilocks<Permutation>>, Refusal>
    ensures made { IsOk result }
    ensures answer { IfOk result (λ p. p.given
        ≡ (is_multi_turn BABY_BEAR_ORDER GOLDILOCKS_ORDER 4 (numbers_of left.entry)
        && is_multi_turn BABY_BEAR_ORDER GOLDILOCKS_ORDER 4 (numbers_of right.entry))) }
    ensures apart { IfOk result (λ p. IsTrue p.given
        → AreUnlike (numbers_of left.entry) (numbers_of right.entry)
        → (multi_held p.first).row ≢ (multi_held p.second).row) }
    ensures first { IfOk result (λ p. multi_held p.first ≡ (if p.given
        then given_multi permutation (numbers_of left.entry) else made_multi permutation)) }
    ensures second { IfOk result (λ p. multi_held p.second ≡ (if p.given
        then given_multi permutation (numbers_of right.entry) else made_multi permutation)) }
    ensures makes { IfOk result (λ p. (multi_make p.first ≡ parameters_of 8 4 permutation)
        × (multi_make p.second ≡ parameters_of 8 4 permutation)) }
{
    let mut ends = multi_field_ends::<BabyBear, Goldilocks, BABY_BEAR_ORDER, GOLDILOCKS_ORDER>(
        8,
        4,
        permutation,
    )?;
    let given = observe_both_multi_field(&mut ends.prover, &mut ends.verifier, left, right);
    Ok(Pair {
        first: ends.prover,
        second: ends.verifier,
        given,
    })
}

/// Makes two sponges alike, over Goldilocks, and gives each a turn, with a block of codes, of words or of scalars of BabyBear, or with none; they stay as made if one of the two is no block of theirs.
pub fn turn_both_sponges(
    permutation: Permutation,
    left: Option<Block>,
    right: Option<Block>,
) -> Result<Pair<Sponge<Goldilocks, Permutation, GOLDILOCKS_ORDER>>, Refusal>
    ensures made { IsOk result }
    ensures answer { IfOk result (λ p. p.given
        ≡ (is_turn BABY_BEAR_ORDER GOLDILOCKS_ORDER 4 (numbers_of left.entry)
        && is_turn BABY_BEAR_ORDER GOLDILOCKS_ORDER 4 (numbers_of right.entry))) }
    ensures apart { IfOk result (λ p. IsTrue p.given
        → AreUnlike (numbers_of left.entry) (numbers_of right.entry)
        → (sponge_held p.first).row ≢ (sponge_held p.second).row) }
    ensures first { IfOk result (λ p. sponge_held p.first ≡ (if p.given
        then turned_sponge permutation (numbers_of left.entry) else made_sponge)) }
    ensures second { IfOk result (λ p. sponge_held p.second ≡ (if p.given
        then turned_sponge permutation (numbers_of right.entry) else made_sponge)) }
    ensures makes { IfOk result (λ p. (sponge_make p.first ≡ parameters_of 8 4 permutation)
        × (sponge_make p.second ≡ parameters_of 8 4 permutation)) }
{
    let mut first = Sponge::<Goldilocks, Permutation, GOLDILOCKS_ORDER>::new(8, 4, permutation)?;
    let mut second = Sponge::<Goldilocks, Permutation, GOLDILOCKS_ORDER>::new(8, 4, permutation)?;
    let given = turn_both::<
        BabyBear,
        Goldilocks,
        Permutation,
        Goldilocks,
        Permutation,
        BABY_BEAR_ORDER,
        GOLDILOCKS_ORDER,
    >(&mut first, &mut second, left, right);
    Ok(Pair {
        first,
        second,
        given,
    })
}
