// Words of four bytes.
ghost use Rattle.std.specs.Prelude.{◌≡◌, ◌≤◌, length};
ghost use Rattle.challenger_traits.specs.Meaning.{Does, reply};
ghost use Rattle.byte_transcript.specs.Transcript.{le_word, word, after_word};

use crate::ByteTranscript;

/// The word of a slice's first four bytes, least significant first; 0 where there are fewer.
pub fn word_of(bytes: &[u8]) -> u32
    ensures { result ≡ le_word bytes.now }
{
    match bytes {
        [a, b, c, d, ..] => u32::from_le_bytes([*a, *b, *c, *d]),
        _ => 0,
    }
}

/// Draws four bytes as a word.
#[tactic(auto, unfolding(crate::specs::Transcript::word))]
pub fn draw_word<T: ByteTranscript>(transcript: &mut T) -> u32
    ensures does { Does T.make T.held_value transcript.old transcript.new result
        (reply (word (T.meaning (T.make transcript.old)) (T.held_value transcript.old))
        (after_word (T.meaning (T.make transcript.old)) (T.held_value transcript.old))) }
{
    let a = transcript.sample_byte();
    let b = transcript.sample_byte();
    let c = transcript.sample_byte();
    let d = transcript.sample_byte();
    word_of(&[a, b, c, d])
}
