// The table of the prover's and the verifier's run, side by side.
ghost use Rattle.std.specs.Prelude.{◌≡◌, ◌++◌, codes, IfOk, string_bytes, IsTrue};
ghost use Rattle.script.specs.Meaning.{meaning};
ghost use Rattle.script.specs.Grammar.{said_by};
ghost use Rattle.played.specs.Requests.{called};
ghost use Rattle.played.specs.Kinds.{kind_of};
ghost use Rattle.played.specs.Voices.{voice};
ghost use Rattle.rehearsal.specs.Lines.{line_of, lines_of, part_of, played};
ghost use Rattle.rehearsal.specs.Tables.{head, row, same, ended, again, as_grind, as_check};
ghost use Rattle.rehearsal.specs.Tables.{check_words, instead_words, turn_row, absent_kind};
ghost use Rattle.rehearsal.specs.Tables.{absent_said, absent, call_row, line_row, finish, table};
ghost use Rattle.rehearsal.specs.Tables.{refused_table, idle_table};
ghost use Rattle.agreement.specs.Ends.{AreAlike};
ghost use Rattle.rehearsal.specs.Ends.{Both, PlayedOn};

use crate::lines::{Mark, Numbered, Part, split_before};
use crate::turns::{Turn, take_turn};
use agreement::Ends;
use played::{Played, Request};
use printing::table::{HEAD, Row};
use refusal::Refusal;
use runs::Call;
use script::{Fault, Line, read_line};
use std::alloc::{AllocError, Global};

/// A table as it is written. What stood in it stays at its front.
#[derive(Drop)]
pub struct Table {
    pub text: String,
}

/// A check in words; another call stands as "same".
fn check_words(heap: Global, call: &Call<'_>) -> Result<String, AllocError>
    ensures { IfOk result (λ text. string_bytes text ≡ check_words (as_check call.now)) }
{
    match call {
        Call::CheckWitness(bits, witness) => format!(in heap; "check {bits} {witness}"),
        _ => String::from_str(heap, "same"),
    }
}

/// What the verifier called in the place of a call, in words.
fn called_instead(heap: Global, call: &Call<'_>, repeated: &Call<'_>) -> Result<String, AllocError>
    ensures { IfOk result (λ text. string_bytes text
        ≡ instead_words (as_grind call.now) repeated.now) }
{
    match call {
        Call::Grind(_, _) => check_words(heap, repeated),
        _ => String::from_str(heap, "same"),
    }
}

impl Table {
    /// Where its text lies.
    fn heap(&self) -> Global {
        *self.text.allocator()
    }

    /// Writes a row: a line, the prover's answer, what the verifier called in its place, and its answer.
    fn row(
        &mut self,
        at: &Numbered<'_>,
        prover: &str,
        instead: &str,
        verifier: &str,
    ) -> Result<(), AllocError>
        ensures { IfOk result (λ _. string_bytes self.new.text
            ≡ string_bytes self.old.text ++ row (line_of at.now) prover.now instead.now
            verifier.now) }
    {
        let row = Row {
            line: at.number,
            call: at.text,
            prover,
            instead,
            verifier,
        };
        writeln!(self.text, "{row}")
    }

    /// Writes a row in which both sides called the same, and got the same answer.
    fn same(&mut self, at: &Numbered<'_>, answer: &str) -> Result<(), AllocError>
        ensures { IfOk result (λ _. string_bytes self.new.text
            ≡ string_bytes self.old.text ++ same (line_of at.now) answer.now) }
    {
        self.row(at, answer, "same", answer)
    }

    /// Writes the names of the columns, and the line that makes a challenger.
    fn begin(&mut self, make: &Numbered<'_>, answer: &str) -> Result<(), AllocError>
        ensures { IfOk result (λ _. string_bytes self.new.text
            ≡ string_bytes self.old.text ++ (head ++ same (line_of make.now) answer.now)) }
    {
        writeln!(self.text, "{HEAD}")?;
        self.same(make, answer)
    }

    /// Writes the row of a turn.
    fn turn(&mut self, at: &Numbered<'_>, turn: &Turn<'_>) -> Result<(), AllocError>
        requires again { turn.now.again ≡ again turn.now.call turn.now.proved }
        ensures { IfOk result (λ _. string_bytes self.new.text
            ≡ string_bytes self.old.text ++ turn_row (line_of at.now) turn.now.call
            turn.now.proved) }
    {
        let heap = self.heap();
        let proved = turn.proved.to_string(heap)?;
        let Some((repeated, said)) = turn.again else {
            return self.row(at, proved.as_str(), "-", "-");
        };
        let instead = called_instead(heap, &turn.call, &repeated)?;
        let said = said.to_string(heap)?;
        self.row(at, proved.as_str(), instead.as_str(), said.as_str())
    }

    /// Plays what a line asks for on both ends, or writes why it does not fit; tells whether the two agree.
    fn step<C: Played>(
        &mut self,
        ends: &mut Ends<C>,
        at: &Numbered<'_>,
        request: &Request,
    ) -> Result<bool, AllocError>
        requires both { Both C.make C.held_value (C.make ends.old.prover)
            (C.held_value ends.old.prover) ends.old }
        ensures { IfOk result (PlayedOn C.make C.held_value (C.make ends.old.prover)
            (call_row (voice C.rule C.shown C.ending C.speaks C.found (C.make ends.old.prover))
            (line_of at.now) (C.held_value ends.old.prover)
            (called C.speaks (meaning request.now.line))) (string_bytes self.old.text)
            (string_bytes self.new.text) ends.new) }
    {
        match request.call(ends.prover.dialect()) {
            Ok(Some(call)) => {
                let turn = take_turn(ends, &call);
                self.turn(at, &turn)?;
                Ok(turn.agrees())
            }
            Ok(None) => Ok(true),
            Err(unfit) => {
                let answer = unfit.to_string(self.heap())?;
                self.same(at, answer.as_str())?;
                Ok(true)
            }
        }
    }

    /// Plays a line on both ends.
    fn line<C: Played>(&mut self, ends: &mut Ends<C>, at: &Numbered<'_>) -> Result<bool, AllocError>
        requires both { Both C.make C.held_value (C.make ends.old.prover)
            (C.held_value ends.old.prover) ends.old }
        ensures { IfOk result (PlayedOn C.make C.held_value (C.make ends.old.prover)
            (line_row (voice C.rule C.shown C.ending C.speaks C.found (C.make ends.old.prover))
            (line_of at.now) (C.held_value ends.old.prover)) (string_bytes self.old.text)
            (string_bytes self.new.text) ends.new) }
    {
        match read_line(self.heap(), at.text) {
            Ok(line) => {
                let request = Request::new(self.heap(), line)?;
                self.step(ends, at, &request)
            }
            Err(Fault::Memory) => Err(AllocError),
            Err(_) => {
                self.same(at, "bad-line")?;
                Ok(true)
            }
        }
    }

    /// Plays lines on both ends.
    fn lines<C: Played>(
        &mut self,
        ends: &mut Ends<C>,
        lines: &[Numbered<'_>],
    ) -> Result<bool, AllocError>
        requires both { Both C.make C.held_value (C.make ends.old.prover)
            (C.held_value ends.old.prover) ends.old }
        ensures { IfOk result (PlayedOn C.make C.held_value (C.make ends.old.prover)
            (played (line_row (voice C.rule C.shown C.ending C.speaks C.found
            (C.make ends.old.prover))) (C.held_value ends.old.prover) (lines_of lines.now))
            (string_bytes self.old.text) (string_bytes self.new.text) ends.new) }
    {
        let mut alike = true;
        for line in lines {
            alike = self.line(ends, line)? && alike;
        }
        Ok(alike)
    }

    /// Writes the row of what a line asks for where there is no challenger.
    fn absent_kind(&mut self, at: &Numbered<'_>, line: &Line) -> Result<(), AllocError>
        ensures { IfOk result (λ _. string_bytes self.new.text
            ≡ string_bytes self.old.text ++ absent_kind (line_of at.now)
            (kind_of (meaning line.now))) }
    {
        match line {
            Line::Blank | Line::Held | Line::Find(_, _) | Line::HashOf(_) | Line::Helpers(_, _) => {
                Ok(())
            }
            _ => self.same(at, "no-challenger"),
        }
    }

    /// Writes the row of a line where there is no challenger.
    fn absent_line(&mut self, at: &Numbered<'_>) -> Result<(), AllocError>
        ensures { IfOk result (λ _. string_bytes self.new.text
            ≡ string_bytes self.old.text ++ absent_said (line_of at.now)
            (said_by at.now.text.now)) }
    {
        match read_line(self.heap(), at.text) {
            Ok(line) => self.absent_kind(at, &line),
            Err(Fault::Memory) => Err(AllocError),
            Err(_) => self.same(at, "bad-line"),
        }
    }

    /// Writes the rows of lines where there is no challenger.
    fn absent(&mut self, lines: &[Numbered<'_>]) -> Result<(), AllocError>
        ensures { IfOk result (λ _. string_bytes self.new.text
            ≡ string_bytes self.old.text ++ absent (lines_of lines.now)) }
    {
        for line in lines {
            self.absent_line(line)?;
        }
        Ok(())
    }

    /// Writes the row of a finalize; tells whether both digests are the same.
    fn digests<C: Played>(&mut self, ends: &Ends<C>, at: &Numbered<'_>) -> Result<bool, AllocError>
        requires both { Both C.make C.held_value (C.make ends.now.prover)
            (C.held_value ends.now.prover) ends.now }
        ensures { IfOk result (λ alike. IsTrue alike
            × (string_bytes self.new.text ≡ string_bytes self.old.text
            ++ same (line_of at.now) (codes "ok "
            ++ C.ending (C.make ends.now.prover) (C.held_value ends.now.prover)))) }
    {
        let heap = self.heap();
        let proved = ends.prover.digest(heap)?;
        let said = ends.verifier.digest(heap)?;
        let prover = format!(in heap; "ok {proved}")?;
        let verifier = format!(in heap; "ok {said}")?;
        self.row(at, prover.as_str(), "same", verifier.as_str())?;
        Ok(proved.as_str() == said.as_str())
    }

    /// Writes what both hold, or held before a finalize; tells whether it is the same.
    fn held<C: Played>(&mut self, ends: &Ends<C>, when: &str) -> Result<bool, AllocError>
        requires both { Both C.make C.held_value (C.make ends.now.prover)
            (C.held_value ends.now.prover) ends.now }
        ensures { IfOk result (λ alike. IsTrue alike
            × (string_bytes self.new.text ≡ string_bytes self.old.text
            ++ ended (when.now ++ (codes "both hold "
            ++ C.shown (C.held_value ends.now.prover))))) }
    {
        let heap = self.heap();
        let prover = ends.prover.held(heap)?;
        let verifier = ends.verifier.held(heap)?;
        // It is proved that both are the same; what is printed is still what was found.
        if prover.as_str() == verifier.as_str() {
            writeln!(self.text, "{when}both hold {prover}")?;
            return Ok(true);
        }
        writeln!(self.text, "{when}the prover holds {prover}")?;
        writeln!(self.text, "{when}the verifier holds {verifier}")?;
        Ok(false)
    }

    /// Writes a finalize and the lines behind it, if there is one, and what both hold; tells whether it is the same.
    fn finish<C: Played>(
        &mut self,
        ends: &Ends<C>,
        lines: &[Numbered<'_>],
    ) -> Result<bool, AllocError>
        requires both { Both C.make C.held_value (C.make ends.now.prover)
            (C.held_value ends.now.prover) ends.now }
        ensures { IfOk result (λ alike. IsTrue alike
            × (string_bytes self.new.text ≡ string_bytes self.old.text
            ++ finish (voice C.rule C.shown C.ending C.speaks C.found (C.make ends.now.prover))
            (C.held_value ends.now.prover) (lines_of lines.now))) }
    {
        let Some((at, after)) = lines.split_first() else {
            return self.held(ends, "");
        };
        let alike = self.digests(ends, at)?;
        self.absent(after)?;
        Ok(self.held(ends, "before finalize ")? && alike)
    }

    /// Writes the table of a part, whose ends were made alike.
    pub fn rehearse<C: Played + Copy>(
        &mut self,
        ends: Ends<C>,
        part: &Part<'_>,
    ) -> Result<(), AllocError>
        requires alike { AreAlike C.make C.held_value ends }
        ensures { IfOk result (λ _. string_bytes self.new.text
            ≡ string_bytes self.old.text ++ table
            (voice C.rule C.shown C.ending C.speaks C.found (C.make ends.prover))
            (C.held_value ends.prover) (part_of part.now)) }
    {
        self.begin(&part.make, "ok")?;
        let (before, after) = split_before(Mark::Finalize, part.lines);
        let mut ends = ends;
        let calls_alike = self.lines(&mut ends, before)?;
        let end_alike = self.finish(&ends, after)?;
        let told = if calls_alike && end_alike {
            "agree"
        } else {
            "differ"
        };
        writeln!(self.text, "{told}")
    }

    /// Writes the table of a part whose make was refused.
    pub fn refused(&mut self, refusal: &Refusal, part: &Part<'_>) -> Result<(), AllocError>
        ensures { IfOk result (λ _. string_bytes self.new.text
            ≡ string_bytes self.old.text ++ refused_table refusal.now (part_of part.now)) }
    {
        let answer = refusal.to_string(self.heap())?;
        self.begin(&part.make, answer.as_str())?;
        self.absent(part.lines)?;
        writeln!(self.text, "agree")
    }

    /// Writes the table of a part for which no challenger was asked, if its lines have a row.
    pub fn unmade(&mut self, part: &Part<'_>) -> Result<(), AllocError>
        ensures { IfOk result (λ _. string_bytes self.new.text
            ≡ string_bytes self.old.text ++ idle_table (part_of part.now)) }
    {
        let mut rows = Table {
            text: String::new(self.heap()),
        };
        rows.absent_line(&part.make)?;
        rows.absent(part.lines)?;
        if rows.text.is_empty() {
            return Ok(());
        }
        writeln!(self.text, "{HEAD}\n{}agree", rows.text)
    }
}
