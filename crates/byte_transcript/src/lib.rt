//! Byte transcripts: what observes bytes and gives bytes back.
#![tactic(auto)]

ghost use Rattle.std.specs.Prelude.{◌≡◌, IsTrue};
ghost use Rattle.challenger_traits.specs.Meaning.{Does, reply, observe_of};
ghost use Rattle.byte_transcript.specs.Transcript.{Transcript, StaysHeld, after_observe_bytes};
ghost use Rattle.byte_transcript.specs.Transcript.{least_candidate};

mod encoding;
mod trial;
mod word;

use challenger_traits::{CanFinalizeDigest, Holding};
pub use encoding::observe_numbers;
use refusal::Refusal;
pub use trial::{MOST_CANDIDATES, candidate_count, find_by_trial};
pub use word::{draw_word, word_of};

/// Observing and drawing bytes.
pub trait ByteTranscript: Holding {
    // What the transcript means, with its laws.
    ghost meaning: { Self.Make → Transcript (Self.Held) };

    // What can be held leads to what can be held.
    ghost stays_held: { (k : Self.Make) → StaysHeld (meaning k) };

    /// How many bytes may still be observed.
    fn room(&self) -> u64
        ensures { result ≡ (meaning (Self.make self.now)).room (Self.held_value self.now) };

    /// Observes all the bytes, or none if they exceed the room.
    fn observe_bytes(&mut self, bytes: &[u8]) -> Result<(), Refusal>
        ensures does { Does Self.make Self.held_value self.old self.new result
            (observe_of (after_observe_bytes (meaning (Self.make self.old))
            (Self.held_value self.old) bytes.now) (Self.held_value self.old)) };

    /// Draws one byte.
    fn sample_byte(&mut self) -> u8
        ensures does { Does Self.make Self.held_value self.old self.new result
            (reply ((meaning (Self.make self.old)).byte (Self.held_value self.old))
            ((meaning (Self.make self.old)).after_draw (Self.held_value self.old))) };

    // The meaning has its laws on each value that a transcript of a make can hold.
    ghost meaning_covers: { (k : Self.Make) (h : Self.Held)
        → IsTrue (Self.Holding.can_be_held k h) → IsTrue ((meaning k).can_be_held h) };
}

/// Finding a witness.
pub trait ByteGrindingChallenger: ByteTranscript {
    /// The least candidate that passes: a copy observes its four bytes, from the lowest on, and the mask makes 0 of the word drawn next. None if no candidate passes, or if four bytes exceed the room. Nothing moves.
    fn find_witness(&self, candidates: u64, mask: u64) -> Option<u64>
        ensures { result ≡ least_candidate (Self.meaning (Self.make self.now))
            (Self.held_value self.now) candidates mask };
}

/// A transcript that ends with its digest: the one that it means.
pub trait CanFinalizeTranscript: ByteTranscript + CanFinalizeDigest {
    ghost digest_is: { (k : Self.Make) (h : Self.Held)
        → Self.CanFinalizeDigest.digest_of k h ≡ (Self.ByteTranscript.meaning k).digest h };
}
