// Candidates for a witness, tried on a prepared input.
ghost use Rattle.std.specs.Prelude.{◌≤◌};

use crate::end_word::end_word;
use crate::{ByteList, HashState};
use hasher::CryptographicHasher;

/// An input, and four places more at its end for the bytes of a candidate.
#[derive(Clone, Copy)]
pub struct PreparedInput {
    bytes: ByteList,
    ghost places: { 4 ≤ bytes.count },
}

impl PreparedInput {
    ghost use Rattle.std.specs.Prelude.{◌≡◌, ℕ, ◌+◌, ◌<◌, ◌≤◌, List, ◌++◌, length, MatchOption};
    ghost use Rattle.std.specs.Prelude.{◌==◌, bit_and};
    ghost use Rattle.byte_transcript.specs.Transcript.{le_bytes};
    ghost use Rattle.hash_state.specs.Rules.{room};
    ghost use Rattle.hash_state.specs.Holds.{held_value, front, whole_input};
    ghost use Rattle.hash_state.specs.Words.{end_word};

    /// The input with four places at its end; none if there is no room for them.
    pub fn new(state: &HashState) -> Option<PreparedInput>
        ensures { MatchOption result (room (held_value state.now) < 4)
            (λ p. (4 ≤ room (held_value state.now)) × (front p ≡ (held_value state.now).input)) }
    {
        if state.room() < 4 {
            return None;
        }
        let mut bytes = state.input;
        bytes.append(&[0; 4]);
        Some(PreparedInput { bytes })
    }

    /// Writes the candidate's bytes, least significant first, into the four places.
    fn write(&mut self, candidate: u32)
        ensures front { front self.new ≡ front self.old }
        ensures whole { whole_input self.new ≡ front self.old ++ le_bytes candidate }
    {
        self.bytes.replace_end(&candidate.to_le_bytes());
    }

    /// The input with what stands in the four places.
    fn bytes(&self) -> &[u8]
        ensures { result.now ≡ whole_input self.now }
    {
        self.bytes.as_slice()
    }

    /// Does the mask make 0 of the word that the digest of the input and the candidate's bytes ends with? One hash.
    pub fn passes<H: CryptographicHasher<N>, const N: usize>(
        &mut self,
        hasher: &H,
        candidate: u32,
        mask: u64,
    ) -> bool
        requires four { 4 ≤ N }
        ensures value { result ≡ (bit_and (end_word
            (H.digest hasher.now (front self.old ++ le_bytes candidate))) mask == 0) }
        ensures front { front self.new ≡ front self.old }
    {
        self.write(candidate);
        let digest = hasher.hash(self.bytes());
        end_word(&digest) as u64 & mask == 0
    }
}
