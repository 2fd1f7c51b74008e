// What is held, observing, sampling, and the digest at the end.
ghost use Rattle.buffer.specs.Items.{items};
ghost use Rattle.challenger_traits.specs.Meaning.{never_refused};
ghost use Rattle.sampling.specs.Uniform.{uniform_of};
ghost use Rattle.sponge.specs.SpongeHeld.{meaning_of_make};
ghost use Rattle.duplex_challenger.specs.Rules.{after_code as after_code_of};
ghost use Rattle.duplex_challenger.specs.Rules.{after_observe as after_observe_of};
ghost use Rattle.duplex_challenger.specs.Rules.{sample_of as draw_of_held, final_rate};
ghost use Rattle.duplex_challenger.specs.Rules.{drawing as drawing_of};
ghost use Rattle.duplex_challenger.specs.Holds.{held_value as held_in, make as make_of};
ghost use Rattle.duplex_challenger.specs.Holds.{can_be_held as can_be_held_in};
ghost use Rattle.duplex_challenger.specs.HeldProofs.{in_memory};

use crate::challenger::turn;
use crate::{DuplexChallenger, DuplexHeld};
use buffer::Buffer;
use challenger_traits::{
    CanFinalizeDigest, CanObserve, CanObserveCode, CanObserveDigest, CanSample, CanSampleBits,
    CanSampleUniformBits, FieldChallenger, Holding, observe_codes,
};
use domain::Domain;
use permutation::CryptographicPermutation;
use refusal::Refusal;
use refusal::limits::WIDEST_ROW;
use sampling::{CanDraw, draw_bits, uniform_bits};
use sponge::Parameters;

impl<D: Domain<ORDER>, P: CryptographicPermutation<D, ORDER>, const ORDER: u64> Holding
    for DuplexChallenger<D, P, ORDER> {
    type Make = Parameters<P>;

    type Held = DuplexHeld;

    ghost make = { make_of };

    ghost held_value = { held_in };

    ghost can_be_held = { λ m. can_be_held_in (meaning_of_make D.arithmetic P.image m) };

    ghost holds = { in_memory };
}

impl<D: Domain<ORDER>, P: CryptographicPermutation<D, ORDER>, const ORDER: u64> CanObserveCode<
    ORDER,
> for DuplexChallenger<D, P, ORDER> {
    ghost after_code = { λ m. after_code_of (meaning_of_make D.arithmetic P.image m) };

    #[tactic(auto, unfolding(crate::specs::Rules::after_code, crate::specs::Rules::after_turn))]
    fn observe_code(&mut self, c: u64) {
        self.sponge.drop_outputs();
        self.pending.push(c);
        if self.pending.len() == self.sponge.rate() {
            turn(&mut self.sponge, &mut self.pending);
        }
    }
}

impl<D: Domain<ORDER>, P: CryptographicPermutation<D, ORDER>, const ORDER: u64> CanObserve<u64>
    for DuplexChallenger<D, P, ORDER> {
    ghost after_observe = { λ m. after_observe_of (meaning_of_make D.arithmetic P.image m) };

    fn observe(&mut self, codes: &[u64]) -> Result<(), Refusal> {
        observe_codes(self, codes)
    }
}

impl<D: Domain<ORDER>, P: CryptographicPermutation<D, ORDER>, const ORDER: u64> CanObserveDigest<
    u64,
> for DuplexChallenger<D, P, ORDER> {
    ghost after_observe_digest = { λ m. after_observe_of
        (meaning_of_make D.arithmetic P.image m) };

    // A digest is its codes.
    fn observe_digest(&mut self, digest: &[u64]) -> Result<(), Refusal> {
        self.observe(digest)
    }
}

impl<D: Domain<ORDER>, P: CryptographicPermutation<D, ORDER>, const ORDER: u64> CanSample<u64>
    for DuplexChallenger<D, P, ORDER> {
    type Given = ();

    ghost sample_of = { λ m h _. never_refused
        (draw_of_held (meaning_of_make D.arithmetic P.image m) h) };

    fn sample(&mut self, _: ()) -> Result<u64, Refusal> {
        Ok(self.draw())
    }
}

impl<D: Domain<ORDER>, P: CryptographicPermutation<D, ORDER>, const ORDER: u64> CanSampleBits
    for DuplexChallenger<D, P, ORDER> {
    ghost drawing = { λ m. drawing_of (meaning_of_make D.arithmetic P.image m) };

    fn order(&self) -> u64 {
        ORDER
    }

    fn sample_bits(&mut self, bits: u64) -> Result<u64, Refusal> {
        draw_bits(self, ORDER, bits)
    }
}

impl<D: Domain<ORDER>, P: CryptographicPermutation<D, ORDER>, const ORDER: u64> CanDraw
    for DuplexChallenger<D, P, ORDER> {
    ghost draw_of = { λ m. draw_of_held (meaning_of_make D.arithmetic P.image m) };

    fn draw(&mut self) -> u64 {
        self.sample()
    }
}

impl<D: Domain<ORDER>, P: CryptographicPermutation<D, ORDER>, const ORDER: u64> CanSampleUniformBits
    for DuplexChallenger<D, P, ORDER> {
    ghost uniform_bits_of = { λ m. uniform_of
        (draw_of_held (meaning_of_make D.arithmetic P.image m)) ORDER D.arithmetic.single };

    // At bits 0 it gives 0 and moves nothing.
    fn sample_uniform_bits(&mut self, bits: u64, limit: u64) -> Result<u64, Refusal> {
        uniform_bits(self, ORDER, D::single() as u64, bits, limit)
    }
}

impl<D: Domain<ORDER>, P: CryptographicPermutation<D, ORDER>, const ORDER: u64> FieldChallenger
    for DuplexChallenger<D, P, ORDER> {}

impl<
    D: Domain<ORDER>,
    P: CryptographicPermutation<D, ORDER> + Drop,
    const ORDER: u64,
> CanFinalizeDigest for DuplexChallenger<D, P, ORDER> {
    type Digest = Buffer<ORDER, WIDEST_ROW>;

    ghost digest_numbers = { items };

    ghost digest_of = { λ m. final_rate (meaning_of_make D.arithmetic P.image m) };

    fn finalize(self) -> Buffer<ORDER, WIDEST_ROW> {
        self.finalize()
    }
}
