// Numbers observed as bytes.
ghost use Rattle.std.specs.Prelude.{◌≡◌, ◌≤◌, IsTrue};
ghost use Rattle.challenger_traits.specs.Meaning.{Does, observe_of};
ghost use Rattle.byte_transcript.specs.Transcript.{after_bytes, fits, after_observe_bytes};
ghost use Rattle.byte_transcript.specs.Encoding.{low_bytes, encoded_numbers};

use crate::ByteTranscript;
use refusal::Refusal;

/// Observes a number as its `size` low bytes, where they fit.
fn put_number<T: ByteTranscript>(transcript: &mut T, number: u64, size: usize)
    requires bytes { size ≤ 8 }
    requires room { size ≤ (T.meaning (T.make transcript.old)).room (T.held_value transcript.old) }
    ensures left { T.held_value transcript.new
        ≡ after_bytes (T.meaning (T.make transcript.old)) (T.held_value transcript.old)
        (low_bytes size number) }
    ensures kept { T.make transcript.new ≡ T.make transcript.old }
{
    let _ = transcript.observe_bytes(&number.to_le_bytes()[..size]);
}

/// Observes each number as its `size` low bytes, where all fit.
fn put_numbers<T: ByteTranscript>(transcript: &mut T, numbers: &[u64], size: usize)
    requires bytes { size ≤ 8 }
    requires room { IsTrue (fits (T.meaning (T.make transcript.old)) (T.held_value transcript.old)
        (encoded_numbers size numbers.now)) }
    ensures left { T.held_value transcript.new
        ≡ after_bytes (T.meaning (T.make transcript.old)) (T.held_value transcript.old)
        (encoded_numbers size numbers.now) }
    ensures kept { T.make transcript.new ≡ T.make transcript.old }
{
    for number in numbers {
        put_number(transcript, *number, size);
    }
}

/// Observes each number as its `size` low bytes, least significant first, or none if their bytes exceed the room together.
pub fn observe_numbers<T: ByteTranscript>(
    transcript: &mut T,
    numbers: &[u64],
    size: usize,
) -> Result<(), Refusal>
    requires some { 1 ≤ size }
    requires bytes { size ≤ 8 }
    ensures does { Does T.make T.held_value transcript.old transcript.new result
        (observe_of (after_observe_bytes (T.meaning (T.make transcript.old))
        (T.held_value transcript.old) (encoded_numbers size numbers.now))
        (T.held_value transcript.old)) }
{
    if numbers.len() as u64 > transcript.room() / size as u64 {
        return Err(Refusal::Room);
    }
    put_numbers(transcript, numbers, size);
    Ok(())
}
