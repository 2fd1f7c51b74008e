// Checking and grinding.
ghost use Rattle.challenger_traits.specs.ObservingProofs.{code_taken};
ghost use Rattle.sponge.specs.SpongeHeld.{meaning_of_make};
ghost use Rattle.multi_field_grind.specs.Scalars.{drawn_scalar_with};
ghost use Rattle.multi_field_challenger.specs.Rules.{after_code};

use crate::MultiField32Challenger;
use challenger_traits::{CanStartCheck, GrindingChallenger, check_by_parts};
use domain::Domain;
use multi_field_grind::PreparedScalar;
use permutation::CryptographicPermutation;
use prepared_grind::{CanPrepareCheck, grind_prepared};
use refusal::Refusal;

impl<
    F: Domain<SAMPLED>,
    D: Domain<ORDER>,
    P: CryptographicPermutation<D, ORDER>,
    const SAMPLED: u64,
    const ORDER: u64,
> CanStartCheck for MultiField32Challenger<F, D, P, SAMPLED, ORDER> {
    ghost check_start = { λ m h. h };

    fn start_check(&mut self) {}

    ghost takes_code = { λ m h w _ lt. code_taken SAMPLED
        (after_code SAMPLED (meaning_of_make D.arithmetic P.image m)) h w lt };
}

impl<
    F: Domain<SAMPLED>,
    D: Domain<ORDER> + Copy,
    P: CryptographicPermutation<D, ORDER> + Copy,
    const SAMPLED: u64,
    const ORDER: u64,
> CanPrepareCheck for MultiField32Challenger<F, D, P, SAMPLED, ORDER> {
    type Prepared = PreparedScalar<SAMPLED, ORDER>;

    ghost drawn_value = { λ m. drawn_scalar_with (P.image m.permutation) };

    fn prepare_check(&self) -> PreparedScalar<SAMPLED, ORDER> {
        PreparedScalar::new(&self.packing, &self.sponge, &self.pending)
    }

    fn drawn_value(&self, prepared: &PreparedScalar<SAMPLED, ORDER>, witness: u64) -> u64 {
        prepared.drawn_scalar::<D, P>(self.sponge.permutation(), witness)
    }
}

impl<
    F: Domain<SAMPLED> + Copy,
    D: Domain<ORDER> + Copy,
    P: CryptographicPermutation<D, ORDER> + Copy,
    const SAMPLED: u64,
    const ORDER: u64,
> GrindingChallenger for MultiField32Challenger<F, D, P, SAMPLED, ORDER> {
    fn check_witness(&mut self, bits: u64, witness: u64) -> Result<bool, Refusal> {
        check_by_parts(self, bits, witness)
    }

    fn grind(&mut self, bits: u64, budget: u64) -> Result<(u64, u64), Refusal> {
        grind_prepared(self, bits, budget)
    }
}
