//! Why a call was refused: a case for each question, with its number and the values that it carries.
#![tactic(auto)]

ghost use Rattle.std.specs.Prelude.{◌≡◌, length, take, drop};
ghost use Rattle.refusal.specs.Numbers.{number, values};

use std::{error, fmt};

pub mod limits;

/// A failed question; the limits that the questions name are in `limits`.
#[derive(Clone, Copy, PartialEq, Eq, Hash, Debug)]
pub enum Refusal {
    /// Is 1 ≤ RATE < WIDTH ≤ `WIDEST_ROW`?
    Shape,
    /// Is the sampled order at most 2^32, `GREATEST_SAMPLED_ORDER`?
    SampledOrder,
    /// Is the sampled order below the sponge order? It carries the two orders.
    FieldOrderNotIncreasing(u64, u64),
    /// Is the batch length at most `LONGEST_BATCH`? It carries the batch length and that limit.
    AbsorbLengthTagOverflow(u64, u64),
    /// Is the number of rounds 1 to `MOST_ROUNDS`?
    Rounds,
    /// Has the initial state at most `LONGEST_INPUT` bytes?
    InitialState,
    /// Is bits below `BITS_LIMIT`, and 2^bits below the sampled order?
    Bits,
    /// Is the draw limit 1 to `GREATEST_DRAW_LIMIT`?
    DrawLimit,
    /// Is the budget at most the sampled order?
    Budget,
    /// Is every number given a code of its domain?
    NotCode,
    /// Do all the bytes of the call fit in the room left?
    Room,
    /// Is a candidate below the budget accepted? It carries the trials.
    NoWitness(u64),
    /// Did a draw within the limit fall below its bound? It carries the value drawn last and the bound.
    ResamplingError(u64, u64),
}

impl Refusal {
    /// The number of the question that was failed.
    pub fn number(&self) -> u64
        ensures { result ≡ number self.now }
    {
        match *self {
            Refusal::Shape => 10,
            Refusal::SampledOrder => 11,
            Refusal::FieldOrderNotIncreasing(_, _) => 12,
            Refusal::AbsorbLengthTagOverflow(_, _) => 13,
            Refusal::Rounds => 14,
            Refusal::InitialState => 15,
            Refusal::Bits => 20,
            Refusal::DrawLimit => 21,
            Refusal::Budget => 22,
            Refusal::NotCode => 23,
            Refusal::Room => 24,
            Refusal::NoWitness(_) => 25,
            Refusal::ResamplingError(_, _) => 26,
        }
    }

    /// Writes the values that the case carries to the front of `out`, and says how many they are.
    pub fn values(&self, out: &mut [u64; 2]) -> usize
        ensures count { result ≡ length (values self.now) }
        ensures front { take result out.new ≡ values self.now }
        ensures rest { drop result out.new ≡ drop result out.old }
    {
        match *self {
            Refusal::FieldOrderNotIncreasing(a, b)
            | Refusal::AbsorbLengthTagOverflow(a, b)
            | Refusal::ResamplingError(a, b) => {
                *out = [a, b];
                2
            }
            Refusal::NoWitness(a) => {
                out[0] = a;
                1
            }
            _ => 0,
        }
    }
}

/// `no`, the number of the question, and the values that the case carries.
impl fmt::Display for Refusal {
    ghost use Rattle.std.specs.Prelude.{Some};
    ghost use Rattle.refusal.specs.Spoken.{refusal_words};

    ghost output = { λ e. Some (refusal_words e) };

    fn fmt<W: fmt::Write>(&self, f: &mut fmt::Formatter<W>) -> fmt::Result {
        let number = self.number();
        match self {
            Refusal::FieldOrderNotIncreasing(a, b)
            | Refusal::AbsorbLengthTagOverflow(a, b)
            | Refusal::ResamplingError(a, b) => write!(f, "no {number} {a} {b}"),
            Refusal::NoWitness(a) => write!(f, "no {number} {a}"),
            _ => write!(f, "no {number}"),
        }
    }
}

impl error::Error for Refusal {}
