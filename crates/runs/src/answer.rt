// What a call answers, and that in words.
use refusal::Refusal;
use std::fmt;

/// What a call answers.
#[derive(Clone, Copy, PartialEq, Eq, Hash, Debug)]
pub enum Answer {
    Done,
    Code(u64),
    Bits(u64),
    Checked(bool),
    /// The witness and the trials.
    Ground(u64, u64),
    Refused(Refusal),
    /// The challenger has no such call.
    Absent,
}

impl fmt::Display for Answer {
    ghost use Rattle.std.specs.Prelude.{Some};
    ghost use Rattle.runs.specs.Spoken.{answer_words};

    ghost output = { λ a. Some (answer_words a) };

    fn fmt<W: fmt::Write>(&self, f: &mut fmt::Formatter<W>) -> fmt::Result {
        match self {
            Answer::Done => write!(f, "ok"),
            Answer::Code(n) | Answer::Bits(n) => write!(f, "ok {n}"),
            Answer::Checked(true) => write!(f, "ok yes"),
            Answer::Checked(false) => write!(f, "ok no"),
            Answer::Ground(witness, trials) => write!(f, "ok {witness} {trials}"),
            Answer::Refused(refusal) => write!(f, "{refusal}"),
            Answer::Absent => write!(f, "no-call"),
        }
    }
}
