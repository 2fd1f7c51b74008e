//! What a challenger gives, in words.
#![tactic(auto)]

ghost use Rattle.std.specs.Prelude.{◌≡◌, Some, IfOk, encode_utf8, string_bytes};
ghost use Rattle.printing.specs.Spoken.{listed, held_words, hex_words};

use std::alloc::{AllocError, Global};
use std::fmt;

pub mod table;

/// Codes with a mark between them, or `-` if there is none.
#[derive(Clone, Copy)]
pub struct Listed<'a> {
    pub codes: &'a [u64],
    pub mark: char,
}

impl fmt::Display for Listed<'_> {
    ghost output = { λ l. Some (listed (encode_utf8 l.mark) l.codes.now) };

    fn fmt<W: fmt::Write>(&self, f: &mut fmt::Formatter<W>) -> fmt::Result {
        let mark = self.mark;
        let Some((first, rest)) = self.codes.split_first() else {
            return write!(f, "-");
        };
        write!(f, "{first}")?;
        for code in rest {
            write!(f, "{mark}{code}")?;
        }
        Ok(())
    }
}

impl<'a> Listed<'a> {
    /// Codes with a space between two.
    pub fn with_spaces(codes: &'a [u64]) -> Self
        ensures { (result.codes.now ≡ codes.entry.now) × (result.mark ≡ 32) }
    {
        Listed { codes, mark: ' ' }
    }

    /// Codes with a comma between two.
    pub fn with_commas(codes: &'a [u64]) -> Self
        ensures { (result.codes.now ≡ codes.entry.now) × (result.mark ≡ 44) }
    {
        Listed { codes, mark: ',' }
    }
}

/// What a challenger over a sponge holds.
#[derive(Clone, Copy)]
pub struct Held<'a> {
    pub row: &'a [u64],
    pub pending: &'a [u64],
    pub outputs: &'a [u64],
}

impl fmt::Display for Held<'_> {
    ghost output = { λ h. Some (held_words h.row.now h.pending.now h.outputs.now) };

    fn fmt<W: fmt::Write>(&self, f: &mut fmt::Formatter<W>) -> fmt::Result {
        let row = Listed::with_commas(self.row);
        let pending = Listed::with_commas(self.pending);
        let outputs = Listed::with_commas(self.outputs);
        write!(f, "row={row} pending={pending} outputs={outputs}")
    }
}

/// Bytes as hex digits, or `-` if there is none.
pub fn hex_text(heap: Global, bytes: &[u8]) -> Result<String, AllocError>
    ensures { IfOk result (λ text. string_bytes text ≡ hex_words bytes.now) }
{
    if bytes.is_empty() {
        return String::from_str(heap, "-");
    }
    hex::encode(heap, bytes)
}
