// The play of a script, line by line.
ghost use Rattle.std.specs.Prelude.{◌≡◌, ◌++◌, not, codes, IfOk, string_bytes};
ghost use Rattle.challenger_traits.specs.Meaning.{Reply};
ghost use Rattle.script.specs.Meaning.{meaning, hash_parameters};
ghost use Rattle.script.specs.Grammar.{said_by};
ghost use Rattle.played.specs.Spoken.{unfit_words};
ghost use Rattle.played.specs.Requests.{called};
ghost use Rattle.played.specs.Kinds.{kind_of};
ghost use Rattle.played.specs.Voices.{voice};
ghost use Rattle.rehearsal.specs.Lines.{line_of, lines_of, numbered_lines, played};
ghost use Rattle.rehearsal.specs.Tables.{ended};
ghost use Rattle.player.specs.Admitted.{tells_bad_line};
ghost use Rattle.parts.specs.Hashes.{named_digest};
ghost use Rattle.parts.specs.Helpers.{pair_numbers};
ghost use Rattle.parts.specs.Sheets.{find_words, digest_words, numbers_words, idle_kind, idle_said};
ghost use Rattle.parts.specs.Sheets.{idle, call_answer, kind_answer, line_answer, Answers};
ghost use Rattle.parts.specs.Scripts.{answers, script};

use crate::helpers::pair_numbers;
use agreement::Ends;
use hasher::CryptographicHasher;
use parts::{Playing, play_parts};
use played::{Played, Request, Unfit, named_hasher};
use refusal::Refusal;
use rehearsal::lines::{Mark, Numbered, Part, split_before, split_lines};
use script::{DomainName, Fault, HashParameters, HasherName, Line, read_line};
use std::alloc::{AllocError, Global};
use std::io;

/// The digest of the bytes under the named hash function.
fn digest_of(hasher: HasherName, bytes: &[u8]) -> [u8; 32]
    ensures { result ≡ named_digest hasher bytes.now }
{
    named_hasher(hasher).hash(bytes)
}

/// Is a line of these answers `bad-line`?
fn tells_bad_line(answers: &str) -> bool
    ensures { result ≡ tells_bad_line answers.now }
{
    answers.split('\n').any(|line| line == "bad-line")
}

/// What a play writes: an answer for each call, and a message for each line that cannot be read.
#[derive(Drop)]
pub struct Sheet {
    pub answers: String,
    pub messages: String,
}

impl Sheet {
    /// Prints the answers, and the messages on standard error; tells whether no line was answered `bad-line`.
    pub fn print<R: Print + Eprint>(&self, rt: &R) -> io::Result<bool>
        ensures { IfOk result (λ read. read ≡ not
            (tells_bad_line (string_bytes self.now.answers))) }
    {
        rt.print(self.answers.as_str())?;
        rt.eprint(self.messages.as_str())?;
        Ok(!tells_bad_line(self.answers.as_str()))
    }

    /// Where its text lies.
    fn heap(&self) -> Global {
        *self.answers.allocator()
    }

    /// The answer in the place of a line that cannot be read, and the message.
    fn bad_line(&mut self, line: &Numbered<'_>, fault: Fault<'_>) -> Result<(), AllocError>
        ensures { IfOk result (λ _. string_bytes self.new.answers
            ≡ string_bytes self.old.answers ++ ended (codes "bad-line")) }
    {
        let number = line.number;
        writeln!(self.answers, "bad-line")?;
        writeln!(self.messages, "line {number}: {fault}")
    }

    /// Answers a line that asks for a digest.
    fn hash(&mut self, asked: &HashParameters) -> Result<(), AllocError>
        ensures { IfOk result (λ _. string_bytes self.new.answers
            ≡ string_bytes self.old.answers ++ ended (digest_words (hash_parameters asked.now))) }
    {
        let digest = digest_of(asked.hasher, asked.bytes.as_slice());
        let text = hex::encode(self.heap(), digest)?;
        writeln!(self.answers, "ok {text}")
    }

    /// Answers a line that asks for the numbers of a pair of domains.
    fn helpers(&mut self, sampled: DomainName, domain: DomainName) -> Result<(), AllocError>
        ensures { IfOk result (λ _. string_bytes self.new.answers
            ≡ string_bytes self.old.answers ++ ended
            (numbers_words (pair_numbers sampled domain))) }
    {
        match pair_numbers(sampled, domain) {
            Ok((bits, limbs, digits)) => writeln!(self.answers, "ok {bits} {limbs} {digits}"),
            Err(refusal) => writeln!(self.answers, "{refusal}"),
        }
    }

    /// Answers a line that asks for a search.
    fn find<C: Played>(
        &mut self,
        challenger: &C,
        candidates: u64,
        mask: u64,
    ) -> Result<(), AllocError>
        ensures { IfOk result (λ _. string_bytes self.new.answers
            ≡ string_bytes self.old.answers ++ ended
            (find_words (C.found (C.make challenger.now) (C.held_value challenger.now) candidates
            mask))) }
    {
        match challenger.find(candidates, mask) {
            Some(Some(candidate)) => writeln!(self.answers, "ok {candidate}"),
            Some(None) => writeln!(self.answers, "ok none"),
            None => writeln!(self.answers, "no-call"),
        }
    }

    /// Answers a line that does not fit the challenger. A limit in the wrong place is a fault of the line.
    fn unfit(&mut self, at: &Numbered<'_>, unfit: Unfit) -> Result<(), AllocError>
        ensures { IfOk result (λ _. string_bytes self.new.answers
            ≡ string_bytes self.old.answers ++ ended (unfit_words unfit)) }
    {
        writeln!(self.answers, "{unfit}")?;
        let number = at.number;
        match unfit {
            Unfit::NotBytes => Ok(()),
            Unfit::Limit => writeln!(
                self.messages,
                "line {number}: only a serializing challenger's sample takes a draw limit, and it must"
            ),
        }
    }

    /// Answers a line that asks for a call.
    fn call<C: Played>(
        &mut self,
        challenger: &mut C,
        at: &Numbered<'_>,
        line: Line,
    ) -> Result<(), AllocError>
        ensures { IfOk result (λ _. Answers C.make C.held_value (string_bytes self.old.answers)
            (string_bytes self.new.answers) challenger.old challenger.new
            (call_answer (voice C.rule C.shown C.ending C.speaks C.found (C.make challenger.old))
            (C.held_value challenger.old) (called C.speaks (meaning line)))) }
    {
        let request = Request::new(self.heap(), line)?;
        match request.call(challenger.dialect()) {
            Ok(Some(call)) => writeln!(self.answers, "{}", challenger.call(&call)),
            Ok(None) => Ok(()),
            Err(unfit) => self.unfit(at, unfit),
        }
    }

    /// Answers what a line says, which is no finalize.
    fn answer<C: Played>(
        &mut self,
        challenger: &mut C,
        at: &Numbered<'_>,
        line: Line,
    ) -> Result<(), AllocError>
        ensures { IfOk result (λ _. Answers C.make C.held_value (string_bytes self.old.answers)
            (string_bytes self.new.answers) challenger.old challenger.new
            (kind_answer (voice C.rule C.shown C.ending C.speaks C.found (C.make challenger.old))
            (C.held_value challenger.old) (meaning line) (kind_of (meaning line)))) }
    {
        match line {
            Line::Held => {
                let held = challenger.held(self.heap())?;
                writeln!(self.answers, "held {held}")
            }
            Line::Find(candidates, mask) => self.find(challenger, candidates, mask),
            Line::HashOf(asked) => self.hash(&asked),
            Line::Helpers(sampled, domain) => self.helpers(sampled, domain),
            other => self.call(challenger, at, other),
        }
    }

    /// Answers a line before a finalize.
    fn play_line<C: Played>(
        &mut self,
        challenger: &mut C,
        line: &Numbered<'_>,
    ) -> Result<(), AllocError>
        ensures { IfOk result (λ _. Answers C.make C.held_value (string_bytes self.old.answers)
            (string_bytes self.new.answers) challenger.old challenger.new
            (line_answer (voice C.rule C.shown C.ending C.speaks C.found (C.make challenger.old))
            (line_of line.now) (C.held_value challenger.old))) }
    {
        match read_line(self.heap(), line.text) {
            Ok(read) => self.answer(challenger, line, read),
            // Short memory is no fault of the line, here and below.
            Err(Fault::Memory) => Err(AllocError),
            Err(fault) => self.bad_line(line, fault),
        }
    }

    /// Answers the lines before a finalize.
    fn play_lines<C: Played>(
        &mut self,
        challenger: &mut C,
        lines: &[Numbered<'_>],
    ) -> Result<(), AllocError>
        ensures { IfOk result (λ _. Answers C.make C.held_value (string_bytes self.old.answers)
            (string_bytes self.new.answers) challenger.old challenger.new
            (played (line_answer (voice C.rule C.shown C.ending C.speaks C.found
            (C.make challenger.old))) (C.held_value challenger.old) (lines_of lines.now))) }
    {
        for line in lines {
            self.play_line(challenger, line)?;
        }
        Ok(())
    }

    /// Answers a finalize.
    fn finalize<C: Played>(&mut self, challenger: &C) -> Result<(), AllocError>
        ensures { IfOk result (λ _. string_bytes self.new.answers
            ≡ string_bytes self.old.answers ++ ended
            (codes "ok " ++ C.ending (C.make challenger.now) (C.held_value challenger.now))) }
    {
        let digest = challenger.digest(self.heap())?;
        writeln!(self.answers, "ok {digest}")
    }

    /// Answers a call where there is no challenger.
    fn absent(&mut self) -> Result<(), AllocError>
        ensures { IfOk result (λ _. string_bytes self.new.answers
            ≡ string_bytes self.old.answers ++ ended (codes "no-challenger")) }
    {
        writeln!(self.answers, "no-challenger")
    }

    /// Answers what a line asks for where there is no challenger.
    fn idle_kind(&mut self, line: &Line) -> Result<(), AllocError>
        ensures { IfOk result (λ _. string_bytes self.new.answers
            ≡ string_bytes self.old.answers ++ idle_kind (kind_of (meaning line.now))) }
    {
        match line {
            Line::Blank => Ok(()),
            Line::HashOf(asked) => self.hash(asked),
            Line::Helpers(sampled, domain) => self.helpers(*sampled, *domain),
            _ => self.absent(),
        }
    }

    /// Answers a line where there is no challenger.
    fn idle_line(&mut self, line: &Numbered<'_>) -> Result<(), AllocError>
        ensures { IfOk result (λ _. string_bytes self.new.answers
            ≡ string_bytes self.old.answers ++ idle_said (said_by line.now.text.now)) }
    {
        match read_line(self.heap(), line.text) {
            Ok(read) => self.idle_kind(&read),
            Err(Fault::Memory) => Err(AllocError),
            Err(fault) => self.bad_line(line, fault),
        }
    }

    /// Answers lines where there is no challenger.
    fn idle_lines(&mut self, lines: &[Numbered<'_>]) -> Result<(), AllocError>
        ensures { IfOk result (λ _. string_bytes self.new.answers
            ≡ string_bytes self.old.answers ++ idle (lines_of lines.now)) }
    {
        for line in lines {
            self.idle_line(line)?;
        }
        Ok(())
    }
}

impl Playing for Sheet {
    ghost way = { answers };

    ghost text = { λ s. string_bytes s.answers };

    #[tactic(auto, unfolding(parts::specs::Scripts::begun_part))]
    fn begin<C: Played + Copy>(
        &mut self,
        ends: Ends<C>,
        part: &Part<'_>,
    ) -> Result<(), AllocError> {
        let mut challenger = ends.prover;
        writeln!(self.answers, "ok")?;
        let (before, after) = split_before(Mark::Finalize, part.lines);
        self.play_lines(&mut challenger, before)?;
        let Some((_, rest)) = after.split_first() else {
            return Ok(());
        };
        self.finalize(&challenger)?;
        self.idle_lines(rest)
    }

    #[tactic(auto, unfolding(parts::specs::Scripts::refused_part))]
    fn refuse(&mut self, refusal: &Refusal, part: &Part<'_>) -> Result<(), AllocError> {
        writeln!(self.answers, "{refusal}")?;
        self.idle_lines(part.lines)
    }

    #[tactic(auto, unfolding(parts::specs::Scripts::idle_part))]
    fn idle(&mut self, part: &Part<'_>) -> Result<(), AllocError> {
        self.idle_line(&part.make)?;
        self.idle_lines(part.lines)
    }
}

/// Plays a script.
pub fn run(heap: Global, text: &str) -> Result<Sheet, AllocError>
    ensures { IfOk result (λ sheet. string_bytes sheet.answers
        ≡ script answers (numbered_lines text.now)) }
{
    let lines = split_lines(heap, text)?;
    let mut sheet = Sheet {
        answers: String::new(heap),
        messages: String::new(heap),
    };
    play_parts(heap, lines.as_slice(), &mut sheet)?;
    Ok(sheet)
}
