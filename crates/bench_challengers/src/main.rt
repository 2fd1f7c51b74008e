//! Plays the calls of a row again and again, to be timed beside the Rust: `bench_challengers ROW TURNS` prints the row's checksum. compare/README.md has the inputs of each row.
#![tactic(auto)]

use challenger_traits::{CanFinalizeDigest, CanObserve, GrindingChallenger};
use domain::{BABY_BEAR_ORDER, BYTES_ORDER, BabyBear, Bytes, GOLDILOCKS_ORDER, Goldilocks};
use duplex_challenger::DuplexChallenger;
use hash_challenger::HashChallenger;
use multi_field_challenger::MultiField32Challenger;
use permutation::Ladder;
use refusal::Refusal;
use serializing_challenger::SerializingChallenger32;
use sha256::Sha256;
use std::alloc::{AllocError, Global};
use std::{env, io};

type Codes = DuplexChallenger<BabyBear, Ladder, BABY_BEAR_ORDER>;

type Wide = MultiField32Challenger<BabyBear, Goldilocks, Ladder, BABY_BEAR_ORDER, GOLDILOCKS_ORDER>;

type OverHash = SerializingChallenger32<BabyBear, HashChallenger<Sha256, 32>, BABY_BEAR_ORDER>;

type OverBytes = SerializingChallenger32<
    BabyBear,
    DuplexChallenger<Bytes, Ladder, BYTES_ORDER>,
    BABY_BEAR_ORDER,
>;

/// What is timed of each challenger, beside observing and grinding.
trait Timed: GrindingChallenger {
    /// A sample.
    fn next(&mut self) -> u64;

    /// The first code or byte of the digest.
    fn end(self) -> u64;
}

impl Timed for Codes {
    fn next(&mut self) -> u64 {
        self.sample()
    }

    fn end(self) -> u64 {
        self.finalize().as_slice().first().copied().unwrap_or(0)
    }
}

impl Timed for Wide {
    fn next(&mut self) -> u64 {
        self.sample()
    }

    fn end(self) -> u64 {
        self.finalize().as_slice().first().copied().unwrap_or(0)
    }
}

impl Timed for OverHash {
    fn next(&mut self) -> u64 {
        self.sample(65535).unwrap_or(0)
    }

    fn end(self) -> u64 {
        self.finalize()[0] as u64
    }
}

impl Timed for OverBytes {
    fn next(&mut self) -> u64 {
        self.sample(65535).unwrap_or(0)
    }

    fn end(self) -> u64 {
        self.finalize().as_slice().first().copied().unwrap_or(0)
    }
}

/// The input of a number.
fn value(i: u64) -> u64 {
    i.wrapping_add(1).wrapping_mul(11400714819323198485) % BABY_BEAR_ORDER
}

/// So many inputs, from a number on.
fn values(heap: Global, from: u64, count: u64) -> Result<Vec<u64>, AllocError> {
    (0..count)
        .map(|i| value(from.wrapping_add(i)))
        .collect(heap)
}

/// One slice, and then a sample for the checksum.
fn observe<C: Timed + Copy>(heap: Global, fresh: &C) -> Result<u64, AllocError> {
    let mut c = *fresh;
    let _ = c.observe(values(heap, 0, 100000)?.as_slice());
    Ok(c.next())
}

/// Slices that fit in the room left, and after each a sample, which makes room again.
fn observe_in_room<C: Timed + Copy>(heap: Global, fresh: &C) -> Result<u64, AllocError> {
    let mut c = *fresh;
    let slice = values(heap, 0, 248)?;
    let mut sum = 0;
    for _ in 0..400 {
        let _ = c.observe(slice.as_slice());
        sum ^= c.next();
    }
    Ok(sum)
}

/// Samples after five codes.
fn sample<C: Timed + Copy>(heap: Global, fresh: &C) -> Result<u64, AllocError> {
    let mut c = *fresh;
    let _ = c.observe(values(heap, 0, 5)?.as_slice());
    let mut sum = 0;
    for _ in 0..100000 {
        sum ^= c.next();
    }
    Ok(sum)
}

/// Each of four transcripts observes 64 codes, then grinds; the candidates tried are counted.
fn grind<C: Timed + Copy>(
    heap: Global,
    fresh: &C,
    bits: u64,
    budget: u64,
) -> Result<u64, AllocError> {
    let mut tried = 0u64;
    for t in 0..4 {
        let mut c = *fresh;
        let _ = c.observe(values(heap, 64 * t, 64)?.as_slice());
        let trials = match c.grind(bits, budget) {
            Ok((_, trials)) | Err(Refusal::NoWitness(trials)) => trials,
            Err(_) => 0,
        };
        tried = tried.wrapping_add(trials);
    }
    Ok(tried)
}

/// Copies of one transcript with five codes; each observes one code more and ends.
fn finalize<C: Timed + Copy>(heap: Global, fresh: &C) -> Result<u64, AllocError> {
    let mut c = *fresh;
    let _ = c.observe(values(heap, 0, 5)?.as_slice());
    let mut sum = 0;
    for t in 0..10000 {
        let mut copy = c;
        let _ = copy.observe(&[value(t)]);
        sum ^= copy.end();
    }
    Ok(sum)
}

/// A row of a challenger whose room has no end.
fn play<C: Timed + Copy>(heap: Global, fresh: &C, row: &str) -> Result<u64, AllocError> {
    match row {
        "observe" => observe(heap, fresh),
        "room" => observe_in_room(heap, fresh),
        "sample" => sample(heap, fresh),
        "grind" => grind(heap, fresh, 16, BABY_BEAR_ORDER),
        "search" => grind(heap, fresh, 12, 20000),
        "finalize" => finalize(heap, fresh),
        _ => Ok(0),
    }
}

/// A row, played so many times; its last checksum.
fn turns<C: Timed + Copy>(
    heap: Global,
    made: Result<C, Refusal>,
    row: &str,
    count: u32,
) -> Result<u64, AllocError> {
    let mut sum = 0;
    if let Ok(fresh) = made {
        for _ in 0..count {
            sum = play(heap, &fresh, row)?;
        }
    }
    Ok(sum)
}

/// The serializing challenger over SHA-256.
fn over_hash() -> Result<OverHash, Refusal> {
    SerializingChallenger32::new(HashChallenger::new(&[], Sha256)?)
}

/// The serializing challenger over the duplex challenger over bytes.
fn over_bytes(ladder: Ladder) -> Result<OverBytes, Refusal> {
    SerializingChallenger32::new(DuplexChallenger::new(32, 16, ladder)?)
}

/// The checksum of a row, whose name has its challenger and what is done.
fn checksum(heap: Global, name: &str, ladder: Ladder, count: u32) -> Result<u64, AllocError> {
    let (kind, row) = name.split_once('-').unwrap_or((name, ""));
    match (kind, row) {
        ("duplex", _) => turns(heap, Codes::new(16, 8, ladder), row, count),
        ("multi", _) => turns(heap, Wide::new(16, 8, ladder), row, count),
        ("sha256", "observe") => turns(heap, over_hash(), "room", count),
        ("sha256", _) => turns(heap, over_hash(), row, count),
        ("bytes", "grind") => turns(heap, over_bytes(ladder), "search", count),
        ("bytes", _) => turns(heap, over_bytes(ladder), row, count),
        _ => Ok(0),
    }
}

fn main(rt: HostRuntime) -> io::Result<()> {
    let mut args = env::args(&rt)?.skip(1);
    let name = args.next();
    let count = args.next().and_then(|word| word.parse().ok()).unwrap_or(1);
    if let (Some(name), Ok(ladder)) = (&name, Ladder::new(8)) {
        let sum = checksum(rt.alloc(), name.as_str(), ladder, count)?;
        println!(rt; "{sum}")?;
    }
    Ok(())
}
