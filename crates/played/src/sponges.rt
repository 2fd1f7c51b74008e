// The challengers over a sponge.
ghost use Rattle.std.specs.Prelude.{◌≡◌, ℕ, Some, None, Option};
ghost use Rattle.sponge.specs.Sponge.{SpongeMake as SpongeMakeT};
ghost use Rattle.sponge.specs.SpongeHeld.{meaning_of_make};
ghost use Rattle.byte_transcript.specs.Transcript.{least_candidate};
ghost use Rattle.duplex_challenger.specs.declared.held.DuplexHeld.{DuplexHeld as DuplexHeldT};
ghost use Rattle.duplex_challenger.specs.Bytes.{byte_transcript};
ghost use Rattle.duplex_challenger.specs.Holds.{held_value as duplex_held};
ghost use Rattle.duplex_challenger.specs.Holds.{make_meaning as duplex_making};
ghost use Rattle.duplex_challenger.specs.Rules.{final_rate as duplex_finalized};
ghost use Rattle.multi_field_challenger.specs.Rules.{final_rate as multi_finalized};
ghost use Rattle.played.specs.declared.dialect.Dialect.TheVariants.{Codes};
ghost use Rattle.permutation.specs.Choice.{image as image_of};
ghost use Rattle.sponge.specs.SameSponge.{same_sponge};
ghost use Rattle.played.specs.Shown.{duplex_words, multi_words, codes_words};

use crate::{Dialect, Played, Shown};
use byte_transcript::ByteGrindingChallenger;
use domain::{
    BABY_BEAR_ORDER, BYTES_ORDER, BabyBear, Bytes, Domain, GOLDILOCKS_ORDER, Goldilocks,
    KOALA_BEAR_ORDER, KoalaBear,
};
use duplex_challenger::DuplexChallenger;
use multi_field_challenger::MultiField32Challenger;
use permutation::{CryptographicPermutation, Permutation};
use printing::{Held, Listed};
use std::alloc::{AllocError, Global};

impl<D: Domain<ORDER> + Copy, P: CryptographicPermutation<D, ORDER> + Copy, const ORDER: u64> Shown
    for DuplexChallenger<D, P, ORDER> {
    ghost shown = { duplex_words };

    ghost ending = { λ m h. codes_words (duplex_finalized (meaning_of_make D.arithmetic P.image m)
        h) };

    fn held(&self, heap: Global) -> Result<String, AllocError> {
        let held = Held {
            row: self.row(),
            pending: self.pending(),
            outputs: self.outputs(),
        };
        format!(in heap; "{held}")
    }

    fn digest(&self, heap: Global) -> Result<String, AllocError> {
        let codes = self.finalize();
        format!(in heap; "{}", Listed::with_spaces(codes.as_slice()))
    }
}

// An impl for each domain: only over Bytes is there a search, which asks that codes are bytes.
impl Played for DuplexChallenger<Bytes, Permutation, BYTES_ORDER> {
    ghost speaks = { Codes };

    ghost found = { λ m h n mask. Some (least_candidate
        (byte_transcript (meaning_of_make ⟦<Bytes as Domain<BYTES_ORDER>>⟧.arithmetic
        (image_of ⟦<Bytes as Domain<BYTES_ORDER>>⟧.arithmetic) m)) h n mask) };

    fn dialect(&self) -> Dialect {
        Dialect::Codes
    }

    fn find(&self, candidates: u64, mask: u64) -> Option<Option<u64>> {
        Some(self.find_witness(candidates, mask))
    }

    ghost means_itself = { λ m. same_sponge (meaning_of_make
        ⟦<Bytes as Domain<BYTES_ORDER>>⟧.arithmetic
        (image_of ⟦<Bytes as Domain<BYTES_ORDER>>⟧.arithmetic) m) };
}

impl Played for DuplexChallenger<BabyBear, Permutation, BABY_BEAR_ORDER> {
    ghost speaks = { Codes };

    ghost found = { λ m h n mask. None };

    fn dialect(&self) -> Dialect {
        Dialect::Codes
    }

    fn find(&self, _candidates: u64, _mask: u64) -> Option<Option<u64>> {
        None
    }

    ghost means_itself = { λ m. same_sponge (meaning_of_make
        ⟦<BabyBear as Domain<BABY_BEAR_ORDER>>⟧.arithmetic
        (image_of ⟦<BabyBear as Domain<BABY_BEAR_ORDER>>⟧.arithmetic) m) };
}

impl Played for DuplexChallenger<KoalaBear, Permutation, KOALA_BEAR_ORDER> {
    ghost speaks = { Codes };

    ghost found = { λ m h n mask. None };

    fn dialect(&self) -> Dialect {
        Dialect::Codes
    }

    fn find(&self, _candidates: u64, _mask: u64) -> Option<Option<u64>> {
        None
    }

    ghost means_itself = { λ m. same_sponge (meaning_of_make
        ⟦<KoalaBear as Domain<KOALA_BEAR_ORDER>>⟧.arithmetic
        (image_of ⟦<KoalaBear as Domain<KOALA_BEAR_ORDER>>⟧.arithmetic) m) };
}

impl Played for DuplexChallenger<Goldilocks, Permutation, GOLDILOCKS_ORDER> {
    ghost speaks = { Codes };

    ghost found = { λ m h n mask. None };

    fn dialect(&self) -> Dialect {
        Dialect::Codes
    }

    fn find(&self, _candidates: u64, _mask: u64) -> Option<Option<u64>> {
        None
    }

    ghost means_itself = { λ m. same_sponge (meaning_of_make
        ⟦<Goldilocks as Domain<GOLDILOCKS_ORDER>>⟧.arithmetic
        (image_of ⟦<Goldilocks as Domain<GOLDILOCKS_ORDER>>⟧.arithmetic) m) };
}

impl<
    F: Domain<SAMPLED> + Copy,
    D: Domain<ORDER> + Copy,
    P: CryptographicPermutation<D, ORDER> + Copy,
    const SAMPLED: u64,
    const ORDER: u64,
> Shown for MultiField32Challenger<F, D, P, SAMPLED, ORDER> {
    ghost shown = { multi_words };

    ghost ending = { λ m h. codes_words (multi_finalized SAMPLED
        (meaning_of_make D.arithmetic P.image m) h) };

    fn held(&self, heap: Global) -> Result<String, AllocError> {
        let held = Held {
            row: self.row(),
            pending: self.pending(),
            outputs: self.outputs(),
        };
        let squeeze = Listed::with_commas(self.squeeze());
        format!(in heap; "{held} squeeze={squeeze}")
    }

    fn digest(&self, heap: Global) -> Result<String, AllocError> {
        let codes = self.finalize();
        format!(in heap; "{}", Listed::with_spaces(codes.as_slice()))
    }
}

impl<
    F: Domain<SAMPLED> + Copy,
    D: Domain<ORDER> + Copy,
    P: CryptographicPermutation<D, ORDER> + Copy,
    const SAMPLED: u64,
    const ORDER: u64,
> Played for MultiField32Challenger<F, D, P, SAMPLED, ORDER> {
    ghost speaks = { Codes };

    ghost found = { λ m h n mask. None };

    fn dialect(&self) -> Dialect {
        Dialect::Codes
    }

    fn find(&self, _candidates: u64, _mask: u64) -> Option<Option<u64>> {
        None
    }

    ghost means_itself = { λ m. same_sponge (meaning_of_make D.arithmetic P.image m) };
}
