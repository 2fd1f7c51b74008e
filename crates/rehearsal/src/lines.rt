// The lines of a script.
ghost use Rattle.std.specs.Prelude.{◌≡◌, ◌++◌, IfOk};
ghost use Rattle.rehearsal.specs.Lines.{line_of, lines_of, numbered_lines, marks, before, from};

use script::begins_make;
use std::alloc::{AllocError, Global};

/// A line of a script, without its line end.
#[derive(Clone, Copy)]
pub struct Numbered<'a> {
    pub number: usize,
    pub text: &'a str,
}

/// A part of a script: its first line, which makes its challenger if it can be read and is a make, and the lines that follow.
#[derive(Clone, Copy)]
pub struct Part<'a> {
    pub make: Numbered<'a>,
    pub lines: &'a [Numbered<'a>],
}

/// A line at which the lines before it end.
#[derive(Clone, Copy, PartialEq, Eq, Debug)]
pub enum Mark {
    Make,
    Finalize,
}

/// The lines of a text, numbered from 1.
pub fn split_lines(heap: Global, text: &str) -> Result<Vec<Numbered<'_>>, AllocError>
    ensures { IfOk result (λ v. lines_of v.items ≡ numbered_lines text.now) }
{
    text.split('\n')
        .enumerate()
        .map(|(i, text)| Numbered {
            number: i.saturating_add(1),
            text,
        })
        .collect(heap)
}

/// Is this line so marked?
fn is_marked(mark: Mark, line: &Numbered<'_>) -> bool
    ensures { result ≡ marks mark (line_of line.now) }
{
    match mark {
        Mark::Make => begins_make(line.text),
        Mark::Finalize => line.text == "finalize",
    }
}

/// The lines before the first one so marked, and those from it on.
pub fn split_before<'a>(
    mark: Mark,
    lines: &'a [Numbered<'a>],
) -> (&'a [Numbered<'a>], &'a [Numbered<'a>])
    ensures before { lines_of result.0.now ≡ before mark (lines_of lines.entry.now) }
    ensures from { lines_of result.1.now ≡ from mark (lines_of lines.entry.now) }
    ensures whole { lines.entry.now ≡ result.0.now ++ result.1.now }
{
    for (i, line) in lines.iter().enumerate() {
        if is_marked(mark, line) {
            return lines.split_at(i);
        }
    }
    lines.split_at(lines.len())
}
