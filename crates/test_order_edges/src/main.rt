//! Serializing challengers over a domain of the order 2^32, which can be sampled, and one of 2^32 + 1, which cannot: the script has no such domains.
#![tactic(auto)]

ghost use Rattle.test_order_edges.specs.Edges.{greatest, above};

use challenger_traits::{CanObserve, GrindingChallenger};
use domain::{Bytes, Domain};
use duplex_challenger::DuplexChallenger;
use permutation::Mirror;
use refusal::Refusal;
use serializing_challenger::SerializingChallenger32;
use std::io;

/// The codes below 2^32.
#[derive(Clone, Copy)]
struct Greatest;

impl Domain<4294967296> for Greatest {
    ghost arithmetic = { greatest };

    fn single() -> u32 {
        31
    }

    fn add(a: u64, b: u64) -> u64 {
        (a + b) % 4294967296
    }

    fn stir(a: u64) -> u64 {
        a
    }
}

/// The codes below 2^32 + 1.
#[derive(Clone, Copy)]
struct Above;

impl Domain<4294967297> for Above {
    ghost arithmetic = { above };

    fn single() -> u32 {
        31
    }

    fn add(a: u64, b: u64) -> u64 {
        (a + b) % 4294967297
    }

    fn stir(a: u64) -> u64 {
        a
    }
}

/// The byte duplex challenger below.
fn below() -> Result<DuplexChallenger<Bytes, Mirror, 256>, Refusal> {
    DuplexChallenger::new(6, 5, Mirror)
}

/// A challenger over the codes below 2^32.
fn over_greatest() -> Result<
    SerializingChallenger32<Greatest, DuplexChallenger<Bytes, Mirror, 256>, 4294967296>,
    Refusal,
> {
    SerializingChallenger32::new(below()?)
}

/// A challenger over the codes below 2^32 + 1.
fn over_above() -> Result<
    SerializingChallenger32<Above, DuplexChallenger<Bytes, Mirror, 256>, 4294967297>,
    Refusal,
> {
    SerializingChallenger32::new(below()?)
}

/// Every word is a code of the order 2^32: no sample is refused, and all 32 bits are kept.
fn main(rt: HostRuntime) -> io::Result<()> {
    match over_greatest() {
        Ok(fresh) => {
            let mut c = fresh;
            println!(rt; "observe 4294967295: {:?}", c.observe(&[4294967295]))?;
            println!(rt; "observe 4294967296: {:?}", c.observe(&[4294967296]))?;
            println!(rt; "sample: {:?}", c.sample(1))?;
            println!(rt; "check of 4294967296: {:?}", c.check_witness(3, 4294967296))?;
            println!(rt; "check of 4294967295: {:?}", c.check_witness(3, 4294967295))?;
        }
        Err(refusal) => println!(rt; "{refusal}")?,
    }
    match over_above() {
        Ok(_) => println!(rt; "made"),
        Err(refusal) => println!(rt; "{refusal}"),
    }
}
