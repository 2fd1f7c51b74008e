//! A bale's transcript by library calls alone: the prover's answers beside the verifier's, a row drawn by both, and a witness ground and checked over SHA-256.
#![tactic(auto)]

ghost use Rattle.std.specs.Prelude.{◌≡◌, Some, Ok, IfOk};
ghost use Rattle.uses.specs.Rows.{prover_row};

use anyhow::Result;
use challengers::{Answer, Call, Ladder, Permutation};
use uses::{Session, fresh_serializing, play_both, prove_and_verify, rehearse_row};

/// What the bale's challenger observes: the commitment to the eject log, of eight numbers, and the purity printed on the bale, 9973 of 10000.
const OBSERVED: [u64; 10] = [
    1482915306, 27781934, 903345871, 1720036412, 611290045, 1999001234, 340781256, 1187654321,
    9973, 10000,
];

/// The permutation of the bale's challenger.
fn permutation() -> Result<Permutation> {
    Ok(Permutation::Ladder(Ladder::new(8)?))
}

/// A row of the log, drawn after all that was observed and a witness: the verifier draws the prover's.
fn session(permutation: Permutation, numbers: &[u64]) -> Result<Session>
    ensures again { IfOk result (λ session. session.again ≡ Some session.row) }
    ensures proved { IfOk result (λ session. prover_row permutation numbers.now
        ≡ Ok (session.witness, session.row)) }
{
    let session = rehearse_row(permutation, numbers)?;
    Ok(session)
}

fn main(rt: HostRuntime) -> Result<()> {
    let calls = [
        Call::ObserveDigest(&OBSERVED[..8]),
        Call::Observe(&OBSERVED[8..]),
        Call::Grind(9, 100000),
        Call::Sample,
        Call::Sample,
        Call::SampleBits(10),
        Call::SampleBits(10),
        Call::SampleBits(10),
        Call::UniformBits(12, 64),
        Call::Grind(20, 50),
    ];
    let mut proved = [Answer::Absent; 10];
    let mut said = [Answer::Absent; 10];
    let rehearsal = play_both(permutation()?, &calls, &mut proved, &mut said)?;
    for answer in &proved {
        println!(rt; "prover    {answer}")?;
    }
    for answer in said.iter().take(rehearsal.count.unwrap_or(0)) {
        println!(rt; "verifier  {answer}")?;
    }
    let session = session(permutation()?, &OBSERVED)?;
    println!(rt; "witness   {}", session.witness)?;
    println!(rt; "row       {}", session.row)?;
    println!(rt; "again     {}", session.again == Some(session.row))?;
    let mut prover = fresh_serializing(&[])?;
    let (yes, _) = prove_and_verify(&mut prover, &OBSERVED, 8, 10000)?;
    println!(rt; "sha-256   {yes}")?;
    Ok(())
}
