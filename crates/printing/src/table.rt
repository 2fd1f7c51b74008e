// The table of a rehearsal.
ghost use Rattle.std.specs.Prelude.{◌-◌, ◌^◌, Some, false, ◌++◌};
ghost use Rattle.std.specs.Option.{option_map};
ghost use Rattle.std.specs.Fmt.{DisplaysOnOk};
ghost use Rattle.printing.specs.Table.{cell_text, cells_text};

use std::fmt;

// The widths of the columns of calls, of the prover's answers, and of what the verifier called.
const CALL: usize = 36;

const PROVER: usize = 16;

const INSTEAD: usize = 16;

/// A row: the number of a line, one of the prover's calls, what the verifier called in its place, and the two answers.
#[derive(Clone, Copy)]
pub struct Row<'a, L> {
    pub line: L,
    pub call: &'a str,
    pub prover: &'a str,
    pub instead: &'a str,
    pub verifier: &'a str,
}

/// The names of the columns.
pub const HEAD: Row<'static, &'static str> = Row {
    line: "line",
    call: "call",
    prover: "prover",
    instead: "verifier calls",
    verifier: "verifier",
};

/// The text in its column. Where it is too long, the next column goes on below, at the place `next`.
fn cell<W: fmt::Write>(
    f: &mut fmt::Formatter<W>,
    text: &str,
    width: usize,
    next: usize,
) -> fmt::Result
    ensures { DisplaysOnOk W.write_str_gives f.old result
        (Some (cell_text text.now width next)) f.new }
{
    if text.len() <= width {
        write!(f, "{text:<width$}  ")
    } else {
        write!(f, "{text}\n{:next$}", "")
    }
}

impl<L: fmt::Display> fmt::Display for Row<'_, L> {
    ghost output = { λ r. option_map (λ line. line
        ++ cells_text r.call.now r.prover.now r.instead.now r.verifier.now)
        (L.styled_output r.line (record {
          fill = 32;
          align = 3;
          plus = false;
          alternate = false;
          zero = false;
          width = 4;
          precision = 2 ^ 64 - 1;
        })) };

    fn fmt<W: fmt::Write>(&self, f: &mut fmt::Formatter<W>) -> fmt::Result {
        let line = &self.line;
        let verifier = self.verifier;
        write!(f, "{line:>4}  ")?;
        cell(f, self.call, CALL, 44)?;
        cell(f, self.prover, PROVER, 62)?;
        cell(f, self.instead, INSTEAD, 80)?;
        write!(f, "{verifier}")
    }
}
