// The hash challenger.
ghost use Rattle.std.specs.Prelude.{Some, refl};
ghost use Rattle.byte_transcript.specs.Transcript.{least_candidate};
ghost use Rattle.hash_challenger.specs.Meaning.{hash_transcript};
ghost use Rattle.printing.specs.Spoken.{hex_words};
ghost use Rattle.played.specs.declared.dialect.Dialect.TheVariants.{Bytes};
ghost use Rattle.played.specs.Shown.{hash_held_words};

use crate::{Dialect, Played, Shown};
use byte_transcript::ByteGrindingChallenger;
use hash_challenger::HashChallenger;
use hasher::CryptographicHasher;
use printing::hex_text;
use std::alloc::{AllocError, Global};

impl<H: CryptographicHasher<N> + Copy, const N: usize> Shown for HashChallenger<H, N> {
    ghost shown = { hash_held_words };

    ghost ending = { λ k h. hex_words (H.digest k h.input) };

    fn held(&self, heap: Global) -> Result<String, AllocError> {
        let input = hex_text(heap, self.input())?;
        let outputs = hex_text(heap, self.outputs())?;
        format!(in heap; "input={input} outputs={outputs}")
    }

    fn digest(&self, heap: Global) -> Result<String, AllocError> {
        let bytes = self.finalize();
        hex_text(heap, &bytes)
    }
}

impl<H: CryptographicHasher<N> + Copy, const N: usize> Played for HashChallenger<H, N> {
    ghost speaks = { Bytes };

    ghost found = { λ k h n mask. Some (least_candidate (hash_transcript (H.digest k) (H.hashing k))
        h n mask) };

    fn dialect(&self) -> Dialect {
        Dialect::Bytes
    }

    fn find(&self, candidates: u64, mask: u64) -> Option<Option<u64>> {
        Some(self.find_witness(candidates, mask))
    }

    ghost means_itself = { λ h m. refl };
}
