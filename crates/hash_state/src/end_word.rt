// The word at the end of a list of bytes.
ghost use Rattle.std.specs.Prelude.{◌≡◌, ◌≤◌, length};
ghost use Rattle.hash_state.specs.Words.{end_word};

/// The word of a slice's last four bytes, the last one least significant.
pub(crate) fn end_word(bytes: &[u8]) -> u32
    requires four { 4 ≤ length bytes.now }
    ensures { result ≡ end_word bytes.now }
{
    bytes
        .last_chunk::<4>()
        .map_or(0, |last| u32::from_be_bytes(*last))
}
