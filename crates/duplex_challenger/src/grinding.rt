// Checking and grinding.
ghost use Rattle.prepared_grind.specs.Blocks.{last_output_with};
ghost use Rattle.sponge.specs.SpongeHeld.{meaning_of_make};
ghost use Rattle.challenger_traits.specs.ObservingProofs.{code_taken};
ghost use Rattle.duplex_challenger.specs.Rules.{after_code as after_code_of};

use crate::DuplexChallenger;
use challenger_traits::{CanStartCheck, GrindingChallenger, check_by_parts};
use domain::Domain;
use permutation::CryptographicPermutation;
use prepared_grind::{CanPrepareCheck, PreparedBlock, grind_prepared};
use refusal::Refusal;

impl<D: Domain<ORDER>, P: CryptographicPermutation<D, ORDER>, const ORDER: u64> CanStartCheck
    for DuplexChallenger<D, P, ORDER> {
    ghost check_start = { λ m h. h };

    fn start_check(&mut self) {}

    ghost takes_code = { λ m h w ok lt. code_taken ORDER
        (after_code_of (meaning_of_make D.arithmetic P.image m)) h w lt };
}

impl<
    D: Domain<ORDER> + Copy,
    P: CryptographicPermutation<D, ORDER> + Copy,
    const ORDER: u64,
> CanPrepareCheck for DuplexChallenger<D, P, ORDER> {
    type Prepared = PreparedBlock<ORDER>;

    ghost drawn_value = { λ m. last_output_with (P.image m.permutation) };

    fn prepare_check(&self) -> PreparedBlock<ORDER> {
        let mut codes = self.pending;
        codes.push(0);
        PreparedBlock::new(&self.sponge, &codes, codes.len() as u64)
    }

    fn drawn_value(&self, prepared: &PreparedBlock<ORDER>, witness: u64) -> u64 {
        prepared.last_output::<D, P>(self.sponge.permutation(), witness)
    }
}

impl<
    D: Domain<ORDER> + Copy,
    P: CryptographicPermutation<D, ORDER> + Copy,
    const ORDER: u64,
> GrindingChallenger for DuplexChallenger<D, P, ORDER> {
    fn check_witness(&mut self, bits: u64, witness: u64) -> Result<bool, Refusal> {
        check_by_parts(self, bits, witness)
    }

    fn grind(&mut self, bits: u64, budget: u64) -> Result<(u64, u64), Refusal> {
        grind_prepared(self, bits, budget)
    }
}
