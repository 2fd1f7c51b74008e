// A witness found by trial.
ghost use Rattle.std.specs.Prelude.{◌≡◌, ◌≤◌};
ghost use Rattle.byte_transcript.specs.Transcript.{passes, candidate_count, least_candidate};

use crate::ByteTranscript;
use crate::word::draw_word;

/// The most candidates for a witness, 2^32: a candidate is four bytes.
pub const MOST_CANDIDATES: u64 = 4294967296;

/// Does a copy that observes the candidate's bytes draw a word that the mask makes 0?
fn passing<T: ByteTranscript + Copy>(transcript: &T, candidate: u32, mask: u64) -> bool
    requires room { 4 ≤ (T.meaning (T.make transcript.now)).room (T.held_value transcript.now) }
    ensures { result ≡ passes (T.meaning (T.make transcript.now)) (T.held_value transcript.now) mask
        candidate }
{
    let mut trial = *transcript;
    let _ = trial.observe_bytes(&candidate.to_le_bytes());
    draw_word(&mut trial) as u64 & mask == 0
}

/// The number of candidates; above `MOST_CANDIDATES` it counts as that.
pub fn candidate_count(candidates: u64) -> u64
    ensures { result ≡ candidate_count candidates }
{
    candidates.min(MOST_CANDIDATES)
}

// Unlike a grind it tries words under a mask, and moves nothing.
/// What any transcript may use: each candidate is tried on a copy.
pub fn find_by_trial<T: ByteTranscript + Copy>(
    transcript: &T,
    candidates: u64,
    mask: u64,
) -> Option<u64>
    ensures { result ≡ least_candidate (T.meaning (T.make transcript.now))
        (T.held_value transcript.now) candidates mask }
{
    if transcript.room() < 4 {
        return None;
    }
    for candidate in 0..candidate_count(candidates) {
        if passing(transcript, candidate as u32, mask) {
            return Some(candidate);
        }
    }
    None
}
