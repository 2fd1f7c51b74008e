//! The hash challenger: bytes are appended to an input, and outputs are digests of it.
#![tactic(auto)]

ghost use Rattle.std.specs.Prelude.{◌≡◌, IsTrue, refl};
ghost use Rattle.refusal.specs.Made.{MadeUnless};
ghost use Rattle.challenger_traits.specs.Meaning.{Does};
ghost use Rattle.hash_state.specs.Rules.{initial_no, can_be_held, sample_of};
ghost use Rattle.hash_challenger.specs.Holds.{held_value as held_in, make as make_of, IsFresh};
ghost use Rattle.hash_challenger.specs.Meaning.{hash_transcript};
ghost use Rattle.hash_challenger.specs.SameProofs.{transcript_stays};

mod calls;
mod traits;

use byte_transcript::{
    ByteGrindingChallenger, ByteTranscript, CanFinalizeTranscript, candidate_count, find_by_trial,
};
use challenger_traits::CanObserve;
use hash_state::{HashState, PreparedInput};
use hasher::CryptographicHasher;
use refusal::Refusal;

/// The hash challenger over a hasher whose digests have `N` bytes.
// What is held knows no hasher, so its crate is checked without one.
#[derive(Clone, Copy)]
pub struct HashChallenger<H: CryptographicHasher<N>, const N: usize> {
    hasher: H,
    state: HashState,
}

impl<H: CryptographicHasher<N> + Drop, const N: usize> HashChallenger<H, N> {
    /// A fresh challenger, which holds the initial bytes and no output; refused if there are more than `LONGEST_INPUT`.
    pub fn new(initial: &[u8], hasher: H) -> Result<Self, Refusal>
        ensures { MadeUnless (initial_no initial.now) (IsFresh initial.now hasher) result }
    {
        let state = HashState::new(initial)?;
        Ok(HashChallenger { hasher, state })
    }

    /// Ends the challenger: the digest of the input.
    pub fn finalize(self) -> [u8; N]
        ensures { result ≡ H.digest (make_of self) (held_in self).input }
    {
        self.hasher.hash(self.state.input())
    }
}

impl<H: CryptographicHasher<N>, const N: usize> HashChallenger<H, N> {
    /// The last output; if none is left, the input and the outputs first become the digest of the input. What is held is one of the values that can be.
    pub fn sample(&mut self) -> u8
        ensures does { Does make_of held_in self.old self.new result
            (sample_of (H.digest (make_of self.old)) (held_in self.old)) }
        ensures can_be_held { IsTrue (can_be_held (held_in self.old)) }
    {
        self.state.sample::<H, N>(&self.hasher)
    }

    /// The input, to be read.
    pub fn input(&self) -> &[u8]
        ensures { result.now ≡ (held_in self.now).input }
    {
        self.state.input()
    }

    /// The outputs not yet taken, to be read.
    pub fn outputs(&self) -> &[u8]
        ensures { result.now ≡ (held_in self.now).outputs }
    {
        self.state.outputs()
    }
}

impl<H: CryptographicHasher<N>, const N: usize> ByteTranscript for HashChallenger<H, N> {
    ghost meaning = { λ h. hash_transcript (H.digest h) (H.hashing h) };

    ghost stays_held = { λ h. transcript_stays (H.digest h) (H.hashing h) };

    fn room(&self) -> u64 {
        self.state.room() as u64
    }

    #[tactic(auto, using(crate::proofs::Transcripts::after_observe_same))]
    fn observe_bytes(&mut self, bytes: &[u8]) -> Result<(), Refusal> {
        self.observe(bytes)
    }

    fn sample_byte(&mut self) -> u8 {
        self.sample()
    }

    ghost meaning_covers = { λ h v ok. ok };
}

impl<H: CryptographicHasher<N> + Copy, const N: usize> ByteGrindingChallenger
    for HashChallenger<H, N> {
    fn find_witness(&self, candidates: u64, mask: u64) -> Option<u64> {
        if N < 4 {
            return find_by_trial(self, candidates, mask);
        }
        let mut prepared = PreparedInput::new(&self.state)?;
        // A `find` would need a closure that changes the prepared input.
        for candidate in 0..candidate_count(candidates) {
            if prepared.passes::<H, N>(&self.hasher, candidate as u32, mask) {
                return Some(candidate);
            }
        }
        None
    }
}

impl<H: CryptographicHasher<N> + Drop, const N: usize> CanFinalizeTranscript
    for HashChallenger<H, N> {
    ghost digest_is = { λ h v. refl };
}
