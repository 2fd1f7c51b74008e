// A witness ground and checked, by any challenger that grinds.
ghost use Rattle.std.specs.Prelude.{◌≡◌, true, Ok, Err, IsOk, IfOk, IfErr};
ghost use Rattle.challengers.specs.Meaning.{Does, reply};
ghost use Rattle.challengers.specs.Grinding.{at_make};
ghost use Rattle.uses.specs.Witness.{observed_and_checked, observed_and_ground};

use challengers::{GrindingChallenger, Refusal};

/// The prover: observes the numbers and grinds. The verifier's rule says yes to the witness and leaves the same.
pub fn prove<C: GrindingChallenger>(
    c: &mut C,
    numbers: &[u64],
    bits: u64,
    budget: u64,
) -> Result<u64, Refusal>
    ensures does { Does C.make C.held_value c.old c.new result (observed_and_ground
        (at_make C.after_observe C.drawing C.check_start (C.make c.old)) (C.held_value c.old)
        numbers.now bits budget) }
    ensures passes { IfOk result (λ witness. observed_and_checked
        (at_make C.after_observe C.drawing C.check_start (C.make c.old)) (C.held_value c.old)
        numbers.now bits witness ≡ reply (Ok true) (C.held_value c.new)) }
{
    c.observe(numbers)?;
    let (witness, _) = c.grind(bits, budget)?;
    Ok(witness)
}

/// The verifier: observes the numbers and checks the witness.
pub fn verify<C: GrindingChallenger>(
    c: &mut C,
    numbers: &[u64],
    bits: u64,
    witness: u64,
) -> Result<bool, Refusal>
    ensures does { Does C.make C.held_value c.old c.new result (observed_and_checked
        (at_make C.after_observe C.drawing C.check_start (C.make c.old)) (C.held_value c.old)
        numbers.now bits witness) }
{
    c.observe(numbers)?;
    c.check_witness(bits, witness)
}

/// Both ends, as copies of one challenger: the check says yes, and both hold the same.
pub fn prove_and_verify<C: GrindingChallenger + Copy>(
    prover: &mut C,
    numbers: &[u64],
    bits: u64,
    budget: u64,
) -> Result<(bool, C), Refusal>
    ensures ground { (C.make prover.new ≡ C.make prover.old) × (C.held_value prover.new
        ≡ (observed_and_ground (at_make C.after_observe C.drawing C.check_start
        (C.make prover.old)) (C.held_value prover.old) numbers.now bits budget).left) }
    ensures refused { IfErr result (λ e. (observed_and_ground (at_make C.after_observe C.drawing
        C.check_start (C.make prover.old)) (C.held_value prover.old) numbers.now bits budget).said
        ≡ Err e) }
    ensures found { IfOk result (λ _. IsOk (observed_and_ground (at_make C.after_observe
        C.drawing C.check_start (C.make prover.old)) (C.held_value prover.old) numbers.now bits
        budget).said) }
    ensures agree { IfOk result (λ seen. (seen.0 ≡ true) × (C.make seen.1 ≡ C.make prover.new)
        × (C.held_value seen.1 ≡ C.held_value prover.new)) }
{
    let mut verifier = *prover;
    let witness = prove(prover, numbers, bits, budget)?;
    let yes = verify(&mut verifier, numbers, bits, witness)?;
    Ok((yes, verifier))
}
