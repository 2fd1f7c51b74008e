//! The permutation Keccak-f[1600], as FIPS 202 defines it. The lane (x, y) of the state stands at x + 5 * y.
#![tactic(auto)]

ghost use Rattle.std.specs.Prelude.{◌≡◌};
ghost use Rattle.keccak_spec.specs.Keccak.{round, «keccak_f»};
ghost use Rattle.keccak_spec.specs.Complemented.{complement, between_rounds};

use keccak_chi::chi;
use keccak_rho_pi::rho_pi;
use keccak_theta::theta;

const ROUND_CONSTANTS: [u64; 24] = [
    0x0000000000000001,
    0x0000000000008082,
    0x800000000000808a,
    0x8000000080008000,
    0x000000000000808b,
    0x0000000080000001,
    0x8000000080008081,
    0x8000000000008009,
    0x000000000000008a,
    0x0000000000000088,
    0x0000000080008009,
    0x000000008000000a,
    0x000000008000808b,
    0x800000000000008b,
    0x8000000000008089,
    0x8000000000008003,
    0x8000000000008002,
    0x8000000000000080,
    0x000000000000800a,
    0x800000008000000a,
    0x8000000080008081,
    0x8000000000008080,
    0x0000000080000001,
    0x8000000080008008,
];

/// Complements the six lanes that the rounds hold complemented, or takes that back.
// Held complemented, they save χ two in three of its negations.
fn complement_lanes(s: &mut [u64; 25])
    ensures { s.new ≡ complement between_rounds s.old }
{
    s[1] = !s[1];
    s[2] = !s[2];
    s[8] = !s[8];
    s[12] = !s[12];
    s[17] = !s[17];
    s[20] = !s[20];
}

/// One round over complemented lanes, whose last step mixes the constant into the first lane.
fn one_round<const COPY: usize>(a: &[u64; 25], constant: u64) -> [u64; 25]
    ensures { complement between_rounds result ≡ round (complement between_rounds a.now) constant }
{
    let mut r = chi::<COPY>(&rho_pi::<COPY>(&theta::<COPY>(a)));
    r[0] ^= constant;
    r
}

/// Keccak-f[1600]: 24 rounds, two to a turn.
// Two rounds to a turn of the loop: with one it took 1.03 to 1.05 times as long (docs/history/BENCHMARKS-other-forms.md).
pub fn permute(a: [u64; 25]) -> [u64; 25]
    ensures { result ≡ «keccak_f» a }
{
    let mut s = a;
    complement_lanes(&mut s);
    for pair in ROUND_CONSTANTS.as_chunks::<2>().0 {
        s = one_round::<0>(&s, pair[0]);
        s = one_round::<1>(&s, pair[1]);
    }
    complement_lanes(&mut s);
    s
}
