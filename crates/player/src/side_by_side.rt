// The prover's and the verifier's run of a script, side by side.
ghost use Rattle.std.specs.Prelude.{◌≡◌, None, IfOk, IfErr, string_bytes};
ghost use Rattle.rehearsal.specs.Lines.{lines_of, numbered_lines};
ghost use Rattle.player.specs.declared.side_by_side.Stop.TheVariants.{Memory};
ghost use Rattle.player.specs.Admitted.{first_unread, Names};
ghost use Rattle.parts.specs.Scripts.{tables, script};
ghost use Rattle.player.specs.Spoken.{stop_words};

use parts::play_parts;
use rehearsal::Table;
use rehearsal::lines::{Numbered, split_lines};
use script::{Fault, read_line};
use std::alloc::{AllocError, Global};
use std::{error, fmt};

/// Why a script is not rehearsed.
#[derive(Clone, Copy, PartialEq, Eq, Debug)]
pub enum Stop<'a> {
    /// A line that cannot be read.
    Unreadable(usize, Fault<'a>),
    Memory,
}

impl From<AllocError> for Stop<'_> {
    ghost from_gives = { λ _ r. r ≡ Memory };

    fn from(_e: AllocError) -> Self {
        Stop::Memory
    }
}

impl fmt::Display for Stop<'_> {
    ghost output = { stop_words };

    fn fmt<W: fmt::Write>(&self, f: &mut fmt::Formatter<W>) -> fmt::Result {
        match self {
            Stop::Unreadable(line, fault) => write!(f, "line {line}: {fault}"),
            Stop::Memory => write!(f, "there is not enough memory"),
        }
    }
}

impl error::Error for Stop<'_> {}

/// Refuses the script at the first line that cannot be read.
fn admit<'a>(heap: Global, lines: &[Numbered<'a>]) -> Result<(), Stop<'a>>
    ensures read { IfOk result (λ _. first_unread (lines_of lines.now) ≡ None) }
    ensures refused { IfErr result (Names (first_unread (lines_of lines.now))) }
{
    for line in lines {
        match read_line(heap, line.text) {
            Ok(_) => {}
            Err(Fault::Memory) => return Err(Stop::Memory),
            Err(fault) => return Err(Stop::Unreadable(line.number, fault)),
        }
    }
    Ok(())
}

/// The prover's and the verifier's run of a script, as tables.
pub fn agree<'a>(heap: Global, text: &'a str) -> Result<String, Stop<'a>>
    ensures readable { IfOk result (λ _. first_unread (numbered_lines text.entry.now) ≡ None) }
    ensures refused { IfErr result (Names (first_unread (numbered_lines text.entry.now))) }
    ensures table { IfOk result (λ table. string_bytes table
        ≡ script tables (numbered_lines text.entry.now)) }
{
    let lines = split_lines(heap, text)?;
    admit(heap, lines.as_slice())?;
    let mut table = Table {
        text: String::new(heap),
    };
    play_parts(heap, lines.as_slice(), &mut table)?;
    Ok(table.text)
}
