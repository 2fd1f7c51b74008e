// The prover's and the verifier's turns, one call at a time.
ghost use Rattle.std.specs.Prelude.{◌≡◌, IsTrue};
ghost use Rattle.runs.specs.Lent.{plain};
ghost use Rattle.rehearsal.specs.Tables.{again, wanted};
ghost use Rattle.rehearsal.specs.Ends.{Both};

use agreement::Ends;
use played::Played;
use runs::{Answer, Call, agree, instead};

/// One of the prover's calls and its answer, and what the verifier called in its place, if anything, and its answer.
#[derive(Clone, Copy)]
pub struct Turn<'a> {
    pub call: Call<'a>,
    pub proved: Answer,
    pub again: Option<(Call<'a>, Answer)>,
}

/// The verifier's answer by which it agrees, where the prover got this one.
fn wanted(call: &Call<'_>, proved: Answer) -> Answer
    ensures { result ≡ wanted call.now proved }
{
    match call {
        Call::Grind(_, _) => Answer::Checked(true),
        _ => proved,
    }
}

impl Turn<'_> {
    /// Whether the verifier's answer is the one that repeats the prover's.
    #[tactic(auto, using(crate::proofs::Repeating::wanted_is))]
    pub fn agrees(&self) -> bool
        requires again { self.now.again ≡ again self.now.call self.now.proved }
        ensures { IsTrue result }
    {
        match self.again {
            Some((_, said)) => said == wanted(&self.call, self.proved),
            None => true,
        }
    }
}

/// The prover makes a call, and the verifier repeats it; both held the same before, and do so after.
pub fn take_turn<'a, C: Played>(ends: &mut Ends<C>, call: &Call<'a>) -> Turn<'a>
    requires both { Both C.make C.held_value (C.make ends.old.prover) (C.held_value ends.old.prover)
        ends.old }
    ensures call { result.call ≡ call.now }
    ensures proved { result.proved ≡ (C.rule (C.make ends.old.prover)
        (C.held_value ends.old.prover) call.now).said }
    ensures numbers { C.rule (C.make ends.old.prover) (C.held_value ends.old.prover) call.now
        ≡ C.rule (C.make ends.old.prover) (C.held_value ends.old.prover) (plain call.now) }
    ensures again { result.again ≡ again call.now result.proved }
    ensures both { Both C.make C.held_value (C.make ends.old.prover)
        (C.rule (C.make ends.old.prover) (C.held_value ends.old.prover) call.now).left ends.new }
{
    let mut proved = [Answer::Absent];
    let mut said = [Answer::Absent];
    let Some(_) = agree(
        &mut ends.prover,
        &mut ends.verifier,
        &[*call],
        &mut proved,
        &mut said,
    ) else {
        unreachable!()
    };
    let again = match instead(call, &proved[0]) {
        Some(repeated) => Some((repeated, said[0])),
        None => None,
    };
    Turn {
        call: *call,
        proved: proved[0],
        again,
    }
}
