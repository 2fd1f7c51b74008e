// The duplex challenger over bytes, as a byte transcript.
ghost use Rattle.std.specs.Prelude.{◌≡◌, ℕ, true, List, refl};
ghost use Rattle.sponge.specs.SpongeHeld.{meaning_of_make};
ghost use Rattle.duplex_challenger.specs.Bytes.{byte_transcript};
ghost use Rattle.duplex_challenger.specs.HeldProofs.{transcript_stays};

use crate::DuplexChallenger;
use byte_transcript::{
    ByteGrindingChallenger, ByteTranscript, CanFinalizeTranscript, find_by_trial,
};
use domain::{Bytes, Domain};
use permutation::CryptographicPermutation;
use refusal::Refusal;

/// The room of a transcript that takes any number of bytes.
pub const UNBOUNDED_ROOM: u64 = 18446744073709551615;

/// A domain whose codes are the bytes.
pub trait ByteDomain<const ORDER: u64>: Domain<ORDER> {
    ghost bytes: { ORDER ≡ 256 };
}

impl ByteDomain<256> for Bytes {
    ghost bytes = { refl };
}

impl<D: ByteDomain<ORDER>, P: CryptographicPermutation<D, ORDER>, const ORDER: u64> ByteTranscript
    for DuplexChallenger<D, P, ORDER> {
    ghost meaning = { λ m. byte_transcript (meaning_of_make D.arithmetic P.image m) };

    ghost stays_held = { λ m. transcript_stays (meaning_of_make D.arithmetic P.image m)
        (P.lawful m.permutation) };

    fn room(&self) -> u64 {
        UNBOUNDED_ROOM
    }

    fn observe_bytes(&mut self, bytes: &[u8]) -> Result<(), Refusal> {
        self.observe_byte_codes(bytes);
        Ok(())
    }

    fn sample_byte(&mut self) -> u8 {
        self.sample() as u8
    }

    ghost meaning_covers = { λ m h ok. ok };
}

impl<
    D: ByteDomain<ORDER> + Copy,
    P: CryptographicPermutation<D, ORDER> + Copy,
    const ORDER: u64,
> ByteGrindingChallenger for DuplexChallenger<D, P, ORDER> {
    fn find_witness(&self, candidates: u64, mask: u64) -> Option<u64> {
        find_by_trial(self, candidates, mask)
    }
}

impl<
    D: ByteDomain<ORDER>,
    P: CryptographicPermutation<D, ORDER> + Drop,
    const ORDER: u64,
> CanFinalizeTranscript for DuplexChallenger<D, P, ORDER> {
    ghost digest_is = { λ m h. refl };
}
