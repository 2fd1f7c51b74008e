// A prover and a verifier written apart: the verifier draws what the prover drew.
ghost use Rattle.std.specs.Prelude.{◌≡◌, Some, Ok, Err, IfOk, IfErr};
ghost use Rattle.challengers.specs.Meaning.{Does, reply};
ghost use Rattle.challengers.specs.Grinding.{at_make};
ghost use Rattle.challengers.specs.Ends.{AreAlike};
ghost use Rattle.uses.specs.Witness.{row_after_witness, checked_row};
ghost use Rattle.uses.specs.Rows.{prover_row, verifier_row};
ghost use Rattle.uses.specs.Rows.{prover_row_over_hash, verifier_row_over_hash};

use challengers::{
    BABY_BEAR_ORDER, BabyBear, CanSampleBits, Ends, GrindingChallenger, Hasher, Permutation,
    Refusal, duplex_ends, serializing_hash_ends,
};

/// The witness that a prover found, the row that it drew after it, and what the verifier drew.
#[derive(Clone, Copy, PartialEq, Eq, Debug)]
pub struct Session {
    pub witness: u64,
    pub row: u64,
    pub again: Option<u64>,
}

/// The prover: observes the numbers, grinds, and draws a row of a log of 2^rows.
pub fn prove_row<C: GrindingChallenger>(
    c: &mut C,
    numbers: &[u64],
    bits: u64,
    budget: u64,
    rows: u64,
) -> Result<(u64, u64), Refusal>
    ensures does { Does C.make C.held_value c.old c.new result (row_after_witness
        (at_make C.after_observe C.drawing C.check_start (C.make c.old)) (C.held_value c.old)
        numbers.now bits budget rows) }
    ensures passes { IfOk result (λ drawn. checked_row
        (at_make C.after_observe C.drawing C.check_start (C.make c.old)) (C.held_value c.old)
        numbers.now bits drawn.0 rows ≡ reply (Ok (Some drawn.1)) (C.held_value c.new)) }
{
    c.observe(numbers)?;
    let (witness, _) = c.grind(bits, budget)?;
    Ok((witness, c.sample_bits(rows)?))
}

/// The verifier: observes the numbers, checks the witness, and draws a row of the log if it passes.
pub fn verify_row<C: GrindingChallenger>(
    c: &mut C,
    numbers: &[u64],
    bits: u64,
    witness: u64,
    rows: u64,
) -> Result<Option<u64>, Refusal>
    ensures does { Does C.make C.held_value c.old c.new result (checked_row
        (at_make C.after_observe C.drawing C.check_start (C.make c.old)) (C.held_value c.old)
        numbers.now bits witness rows) }
{
    c.observe(numbers)?;
    if !c.check_witness(bits, witness)? {
        return Ok(None);
    }
    Ok(Some(c.sample_bits(rows)?))
}

/// Both, on two challengers that are alike: the witness passes, and the verifier draws the prover's row.
fn rehearse<C: GrindingChallenger>(
    ends: &mut Ends<C>,
    numbers: &[u64],
    bits: u64,
    budget: u64,
    rows: u64,
) -> Result<Session, Refusal>
    requires alike { AreAlike C.make C.held_value ends.old }
    ensures again { IfOk result (λ session. session.again ≡ Some session.row) }
    ensures proved { IfOk result (λ session. (row_after_witness
        (at_make C.after_observe C.drawing C.check_start (C.make ends.old.prover))
        (C.held_value ends.old.prover) numbers.now bits budget rows).said
        ≡ Ok (session.witness, session.row)) }
    ensures refused { IfErr result (λ e. (row_after_witness
        (at_make C.after_observe C.drawing C.check_start (C.make ends.old.prover))
        (C.held_value ends.old.prover) numbers.now bits budget rows).said ≡ Err e) }
    ensures checked { IfOk result (λ session. (checked_row
        (at_make C.after_observe C.drawing C.check_start (C.make ends.old.prover))
        (C.held_value ends.old.prover) numbers.now bits session.witness rows).said
        ≡ Ok session.again) }
{
    let (witness, row) = prove_row(&mut ends.prover, numbers, bits, budget, rows)?;
    let again = verify_row(&mut ends.verifier, numbers, bits, witness, rows)?;
    Ok(Session {
        witness,
        row,
        again,
    })
}

/// Both, each on a challenger that is made here: the witness passes, and the verifier draws the prover's row.
pub fn rehearse_row(permutation: Permutation, numbers: &[u64]) -> Result<Session, Refusal>
    ensures again { IfOk result (λ session. session.again ≡ Some session.row) }
    ensures proved { IfOk result (λ session. prover_row permutation numbers.now
        ≡ Ok (session.witness, session.row)) }
    ensures refused { IfErr result (λ e. prover_row permutation numbers.now ≡ Err e) }
    ensures checked { IfOk result (λ session. verifier_row permutation numbers.now
        session.witness ≡ Ok session.again) }
{
    let mut ends = duplex_ends::<BabyBear, BABY_BEAR_ORDER>(16, 8, permutation)?;
    rehearse(&mut ends, numbers, 8, 10000, 10)
}

/// The same on serializing challengers over hash challengers that begin with these bytes.
pub fn rehearse_row_over_hash(
    initial: &[u8],
    hasher: Hasher,
    numbers: &[u64],
) -> Result<Session, Refusal>
    ensures again { IfOk result (λ session. session.again ≡ Some session.row) }
    ensures proved { IfOk result (λ session. prover_row_over_hash initial.now hasher numbers.now
        ≡ Ok (session.witness, session.row)) }
    ensures refused { IfErr result (λ e. prover_row_over_hash initial.now hasher numbers.now
        ≡ Err e) }
    ensures checked { IfOk result (λ session. verifier_row_over_hash initial.now hasher numbers.now
        session.witness ≡ Ok session.again) }
{
    let mut ends = serializing_hash_ends::<BabyBear, BABY_BEAR_ORDER>(initial, hasher)?;
    rehearse(&mut ends, numbers, 8, 10000, 10)
}
