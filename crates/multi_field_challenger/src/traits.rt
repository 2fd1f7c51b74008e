// What is held, observing, sampling, and the digest at the end.
ghost use Rattle.std.specs.Prelude.{◌≡◌, []};
ghost use Rattle.buffer.specs.Items.{items};
ghost use Rattle.challenger_traits.specs.Meaning.{never_refused};
ghost use Rattle.sponge.specs.SpongeHeld.{meaning_of_make};
ghost use Rattle.multi_field_challenger.specs.Rules.{multi_held};
ghost use Rattle.multi_field_challenger.specs.Rules.{after_code as after_code_of};
ghost use Rattle.multi_field_challenger.specs.Rules.{after_observe as after_observe_of};
ghost use Rattle.multi_field_challenger.specs.Rules.{after_observe_digest as after_words};
ghost use Rattle.multi_field_challenger.specs.Rules.{sample_of as draw_of_held, final_rate};
ghost use Rattle.multi_field_challenger.specs.Rules.{drawing as drawing_of};
ghost use Rattle.multi_field_challenger.specs.Holds.{held_value as held_in, make as make_of};
ghost use Rattle.multi_field_challenger.specs.Holds.{can_be_held as can_be_held_in};
ghost use Rattle.multi_field_challenger.specs.HeldProofs.{in_memory};

use crate::{MultiField32Challenger, MultiHeld};
use buffer::Buffer;
use challenger_traits::{
    CanFinalizeDigest, CanObserve, CanObserveCode, CanObserveDigest, CanSample, CanSampleBits,
    FieldChallenger, Holding, observe_codes,
};
use domain::{Domain, all_codes};
use multi_field_blocks::{absorb_words, flush};
use permutation::CryptographicPermutation;
use refusal::Refusal;
use refusal::limits::WIDEST_ROW;
use sampling::{CanDraw, draw_bits};
use sponge::Parameters;

impl<
    F: Domain<SAMPLED>,
    D: Domain<ORDER>,
    P: CryptographicPermutation<D, ORDER>,
    const SAMPLED: u64,
    const ORDER: u64,
> Holding for MultiField32Challenger<F, D, P, SAMPLED, ORDER> {
    type Make = Parameters<P>;

    type Held = MultiHeld;

    ghost make = { make_of };

    ghost held_value = { held_in };

    ghost can_be_held = { λ m. can_be_held_in SAMPLED (meaning_of_make D.arithmetic P.image m) };

    ghost holds = { in_memory };
}

impl<
    F: Domain<SAMPLED>,
    D: Domain<ORDER>,
    P: CryptographicPermutation<D, ORDER>,
    const SAMPLED: u64,
    const ORDER: u64,
> CanObserveCode<SAMPLED> for MultiField32Challenger<F, D, P, SAMPLED, ORDER> {
    ghost after_code = { λ m. after_code_of SAMPLED (meaning_of_make D.arithmetic P.image m) };

    #[tactic(auto, unfolding(crate::specs::Rules::after_code, crate::specs::Rules::after_flush))]
    fn observe_code(&mut self, c: u64) {
        self.drop_lists();
        self.pending.push(c);
        if self.pending.len() == self.packing.limbs() * self.sponge.rate() {
            flush(&self.packing, &mut self.sponge, &mut self.pending);
        }
    }
}

impl<
    F: Domain<SAMPLED>,
    D: Domain<ORDER>,
    P: CryptographicPermutation<D, ORDER>,
    const SAMPLED: u64,
    const ORDER: u64,
> CanObserve<u64> for MultiField32Challenger<F, D, P, SAMPLED, ORDER> {
    ghost after_observe = { λ m. after_observe_of SAMPLED
        (meaning_of_make D.arithmetic P.image m) };

    fn observe(&mut self, codes: &[u64]) -> Result<(), Refusal> {
        observe_codes(self, codes)
    }
}

impl<
    F: Domain<SAMPLED>,
    D: Domain<ORDER>,
    P: CryptographicPermutation<D, ORDER>,
    const SAMPLED: u64,
    const ORDER: u64,
> CanObserveDigest<u64> for MultiField32Challenger<F, D, P, SAMPLED, ORDER> {
    ghost after_observe_digest = { λ m. after_words SAMPLED
        (meaning_of_make D.arithmetic P.image m) };

    // A digest is words of the sponge's domain.
    #[tactic(auto, unfolding(crate::specs::Rules::after_digest, crate::specs::Rules::after_flush_if_pending, crate::specs::Rules::after_flush))]
    fn observe_digest(&mut self, digest: &[u64]) -> Result<(), Refusal> {
        if !all_codes::<ORDER>(digest) {
            return Err(Refusal::NotCode);
        }
        self.drop_lists();
        self.flush_if_pending();
        absorb_words(&mut self.sponge, digest);
        Ok(())
    }
}

impl<
    F: Domain<SAMPLED>,
    D: Domain<ORDER>,
    P: CryptographicPermutation<D, ORDER>,
    const SAMPLED: u64,
    const ORDER: u64,
> CanSample<u64> for MultiField32Challenger<F, D, P, SAMPLED, ORDER> {
    type Given = ();

    ghost sample_of = { λ m h _. never_refused
        (draw_of_held SAMPLED (meaning_of_make D.arithmetic P.image m) h) };

    fn sample(&mut self, _: ()) -> Result<u64, Refusal> {
        Ok(self.draw())
    }
}

impl<
    F: Domain<SAMPLED>,
    D: Domain<ORDER>,
    P: CryptographicPermutation<D, ORDER>,
    const SAMPLED: u64,
    const ORDER: u64,
> CanSampleBits for MultiField32Challenger<F, D, P, SAMPLED, ORDER> {
    ghost drawing = { λ m. drawing_of SAMPLED (meaning_of_make D.arithmetic P.image m) };

    fn order(&self) -> u64 {
        SAMPLED
    }

    fn sample_bits(&mut self, bits: u64) -> Result<u64, Refusal> {
        draw_bits(self, SAMPLED, bits)
    }
}

impl<
    F: Domain<SAMPLED>,
    D: Domain<ORDER>,
    P: CryptographicPermutation<D, ORDER>,
    const SAMPLED: u64,
    const ORDER: u64,
> CanDraw for MultiField32Challenger<F, D, P, SAMPLED, ORDER> {
    ghost draw_of = { λ m. draw_of_held SAMPLED (meaning_of_make D.arithmetic P.image m) };

    fn draw(&mut self) -> u64 {
        self.sample()
    }
}

impl<
    F: Domain<SAMPLED>,
    D: Domain<ORDER>,
    P: CryptographicPermutation<D, ORDER>,
    const SAMPLED: u64,
    const ORDER: u64,
> FieldChallenger for MultiField32Challenger<F, D, P, SAMPLED, ORDER> {}

impl<
    F: Domain<SAMPLED>,
    D: Domain<ORDER>,
    P: CryptographicPermutation<D, ORDER> + Drop,
    const SAMPLED: u64,
    const ORDER: u64,
> CanFinalizeDigest for MultiField32Challenger<F, D, P, SAMPLED, ORDER> {
    type Digest = Buffer<ORDER, WIDEST_ROW>;

    ghost digest_numbers = { items };

    ghost digest_of = { λ m. final_rate SAMPLED (meaning_of_make D.arithmetic P.image m) };

    fn finalize(self) -> Buffer<ORDER, WIDEST_ROW> {
        self.finalize()
    }
}

impl<
    F: Domain<SAMPLED>,
    D: Domain<ORDER>,
    P: CryptographicPermutation<D, ORDER>,
    const SAMPLED: u64,
    const ORDER: u64,
> MultiField32Challenger<F, D, P, SAMPLED, ORDER> {
    /// Drops both output lists.
    pub(crate) fn drop_lists(&mut self)
        ensures state { held_in self.new ≡ multi_held (held_in self.old).row
            (held_in self.old).pending [] [] }
        ensures make { make_of self.new ≡ make_of self.old }
        ensures room { (items self.new.pending ≡ items self.old.pending)
            × (self.new.sponge.rate ≡ self.old.sponge.rate) }
    {
        self.sponge.drop_outputs();
        self.squeeze.clear();
    }
}
