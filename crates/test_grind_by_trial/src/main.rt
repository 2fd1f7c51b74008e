//! Grinds by a prepared record and by trial, side by side, in each place of a batch; `test_grind_by_trial prepared COUNT` and `test_grind_by_trial trial COUNT` grind again and again.
#![tactic(auto)]

use challenger_traits::{CanObserve, CanSampleBits, GrindingChallenger, grind_by_trial};
use domain::{BABY_BEAR_ORDER, BYTES_ORDER, BabyBear, Bytes, GOLDILOCKS_ORDER, Goldilocks};
use duplex_challenger::DuplexChallenger;
use multi_field_challenger::MultiField32Challenger;
use permutation::Ladder;
use refusal::Refusal;
use std::{env, io};

type Wide = MultiField32Challenger<BabyBear, Goldilocks, Ladder, BABY_BEAR_ORDER, GOLDILOCKS_ORDER>;

type Narrow = MultiField32Challenger<Bytes, Goldilocks, Ladder, BYTES_ORDER, GOLDILOCKS_ORDER>;

type Codes = DuplexChallenger<BabyBear, Ladder, BABY_BEAR_ORDER>;

type ByteCodes = DuplexChallenger<Bytes, Ladder, BYTES_ORDER>;

/// How many searches were alike, how many of them found a witness above 0, and how many were refused.
#[derive(Clone, Copy)]
struct Tally {
    alike: u32,
    found: u32,
    refused: u32,
}

impl Tally {
    /// One search more from here, both ways: are the answers the same, and the next draws?
    fn search<C: GrindingChallenger + Copy>(&mut self, c: &C, bits: u64, budget: u64) {
        let mut one = *c;
        let mut other = *c;
        let answer = one.grind(bits, budget);
        let mut same = answer == grind_by_trial(&mut other, bits, budget);
        for _ in 0..20 {
            same = one.sample_bits(5) == other.sample_bits(5) && same;
        }
        if same {
            self.alike = self.alike.saturating_add(1);
        }
        match answer {
            Ok((0, _)) => {}
            Ok(_) => self.found = self.found.saturating_add(1),
            Err(_) => self.refused = self.refused.saturating_add(1),
        }
    }

    /// Five searches from here: with few bits and with more, with a small budget, and with no bit.
    fn searches<C: GrindingChallenger + Copy>(&mut self, c: &C) {
        for (bits, budget) in [(2, 100), (5, 200), (7, 256), (7, 2), (0, 5)] {
            self.search(c, bits, budget);
        }
    }
}

/// Searches with each number of codes pending, and then with outputs left.
fn places<C: GrindingChallenger + Copy>(fresh: &C, batch: u64) -> Tally {
    let mut tally = Tally {
        alike: 0,
        found: 0,
        refused: 0,
    };
    for n in 0..batch {
        let mut c = *fresh;
        let _ = c.observe(&[5, 6, 7]);
        let _ = c.sample_bits(3);
        for code in 0..n {
            let _ = c.observe(&[code % 251]);
        }
        tally.searches(&c);
        let _ = c.sample_bits(3);
        tally.searches(&c);
    }
    tally
}

/// The tallies of two multi-field challengers and two duplex challengers.
fn tallies(ladder: Ladder) -> Result<[Tally; 4], Refusal> {
    Ok([
        places(&Wide::new(5, 3, ladder)?, 6),
        places(&Narrow::new(4, 2, ladder)?, 14),
        places(&Codes::new(6, 4, ladder)?, 4),
        places(&ByteCodes::new(4, 2, ladder)?, 2),
    ])
}

/// Prints the tallies.
fn compare(rt: &HostRuntime, ladder: Ladder) -> io::Result<()> {
    if let Ok(all) = tallies(ladder) {
        for tally in all {
            println!(rt;
                "alike {}, found {}, refused {}",
                tally.alike, tally.found, tally.refused
            )?;
        }
    }
    Ok(())
}

/// The sum of the witnesses of that many grinds, in turn, each with five codes pending.
fn ground<C: GrindingChallenger + Copy>(fresh: &C, prepared: bool, count: u64) -> u64 {
    let mut c = *fresh;
    let mut sum = 0u64;
    for i in 0..count {
        let _ = c.observe(&[
            2000000000 - i % 251,
            1900000000,
            1800000000,
            1700000000,
            1600000000,
        ]);
        let found = if prepared {
            c.grind(8, 5000)
        } else {
            grind_by_trial(&mut c, 8, 5000)
        };
        if let Ok((witness, _)) = found {
            sum = sum.wrapping_add(witness);
        }
    }
    sum
}

fn main(rt: HostRuntime) -> io::Result<()> {
    let mut args = env::args(&rt)?.skip(1);
    let way = args.next();
    let count = args.next().and_then(|word| word.parse().ok()).unwrap_or(0);
    let Ok(ladder) = Ladder::new(16) else {
        return Ok(());
    };
    let prepared = way.as_deref() == Some("prepared");
    if way.is_none() {
        return compare(&rt, ladder);
    }
    if let Ok(wide) = Wide::new(12, 8, ladder) {
        println!(rt; "{}", ground(&wide, prepared, count))?;
    }
    if let Ok(codes) = Codes::new(16, 8, ladder) {
        println!(rt; "{}", ground(&codes, prepared, count))?;
    }
    Ok(())
}
