// Ladder.
ghost use Rattle.std.specs.Prelude.{◌≡◌, ℕ, ◌+◌, ◌%◌, ◌<◌, ◌≤◌, length};
ghost use Rattle.refusal.specs.declared.limits.TheConstants.{MOST_ROUNDS};
ghost use Rattle.refusal.specs.Made.{MadeUnless};
ghost use Rattle.permutation.specs.Rows.{IsRow};
ghost use Rattle.permutation.specs.Ladder.{rounds_no, ladder_step, ladder_steps};
ghost use Rattle.permutation.specs.Ladder.{ladder_rounds};
ghost use Rattle.permutation.specs.LadderProofs.{ladder_lawful};

use crate::CryptographicPermutation;
use domain::Domain;
use refusal::Refusal;
use refusal::limits::MOST_ROUNDS;

/// The permutation of 1 to `MOST_ROUNDS` rounds, in each of which every cell is stirred into the next.
#[derive(Clone, Copy, PartialEq, Eq, Debug)]
pub struct Ladder {
    rounds: u64,
    ghost some: { 1 ≤ rounds },
    ghost few: { rounds ≤ MOST_ROUNDS },
}

impl Ladder {
    /// A ladder of that many rounds; refused outside 1 to `MOST_ROUNDS`.
    pub fn new(rounds: u64) -> Result<Ladder, Refusal>
        ensures { MadeUnless (rounds_no rounds) (λ l. l.rounds ≡ rounds) result }
    {
        if rounds < 1 || rounds > MOST_ROUNDS {
            return Err(Refusal::Rounds);
        }
        Ok(Ladder { rounds })
    }

    /// The number of rounds.
    pub fn rounds(&self) -> u64
        ensures { result ≡ self.now.rounds }
    {
        self.rounds
    }
}

/// One step of round `r`: cell `i`, stirred, is added to cell `next` with `r + i + 1`.
#[tactic(auto, unfolding(crate::specs::Ladder::ladder_step))]
fn step<D: Domain<ORDER>, const ORDER: u64>(row: &mut [u64], r: u64, i: usize, next: usize)
    requires row { IsRow ORDER row.old }
    requires few { r < MOST_ROUNDS }
    requires cell { i < length row.old }
    requires next { next ≡ (i + 1) % length row.old }
    ensures { row.new ≡ ladder_step D.arithmetic r i row.old }
{
    let gain = D::add(D::stir(row[i]), r + i as u64 + 1);
    row[next] = D::add(row[next], gain);
}

/// One round: a step for each cell.
fn round<D: Domain<ORDER>, const ORDER: u64>(r: u64, row: &mut [u64])
    requires row { IsRow ORDER row.old }
    requires few { r < MOST_ROUNDS }
    ensures { row.new ≡ ladder_steps D.arithmetic r (length row.old) row.old }
{
    let last = row.len() - 1;
    for i in 0..last {
        step::<D, ORDER>(row, r, i, i + 1);
    }
    step::<D, ORDER>(row, r, last, 0);
}

impl<D: Domain<ORDER>, const ORDER: u64> CryptographicPermutation<D, ORDER> for Ladder {
    ghost image = { λ p. ladder_rounds D.arithmetic p.rounds };

    ghost lawful = { λ p. ladder_lawful D.arithmetic p.rounds p.few };

    fn permute(&self, row: &mut [u64]) {
        for r in 0..self.rounds {
            round::<D, ORDER>(r, row);
        }
    }
}
