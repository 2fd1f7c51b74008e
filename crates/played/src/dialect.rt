// What the numbers of a line are.
ghost use Rattle.std.specs.Prelude.{Some};
ghost use Rattle.played.specs.Spoken.{unfit_words};

use std::{error, fmt};

/// What the numbers of a line are for a challenger, and whether its samples take a draw limit.
#[derive(Clone, Copy, PartialEq, Eq, Debug)]
pub enum Dialect {
    /// Codes.
    Codes,
    /// Bytes.
    Bytes,
    /// Codes in observe, bytes in digest; a sample takes a limit.
    Serializing,
}

/// Why a challenger is not asked for the call of a line.
#[derive(Clone, Copy, PartialEq, Eq, Debug)]
pub enum Unfit {
    /// A number above 255 where bytes are taken.
    NotBytes,
    /// A draw limit that is missing, or given where none is taken.
    Limit,
}

impl fmt::Display for Unfit {
    ghost output = { λ e. Some (unfit_words e) };

    fn fmt<W: fmt::Write>(&self, f: &mut fmt::Formatter<W>) -> fmt::Result {
        match self {
            Unfit::NotBytes => write!(f, "not-bytes"),
            Unfit::Limit => write!(f, "bad-line"),
        }
    }
}

impl error::Error for Unfit {}
