//! The step χ of the permutation Keccak-f[1600]. The lane (x, y) of the state stands at x + 5 * y.
#![tactic(auto)]

ghost use Rattle.std.specs.Prelude.{◌≡◌};
ghost use Rattle.keccak_spec.specs.Keccak.{χ};
ghost use Rattle.keccak_spec.specs.Complemented.{complement, between_rounds, «before_χ»};

/// Each lane with the two to its right in its row, from lanes of which some come complemented to lanes of which six stay so.
// A lane that comes complemented needs no `!` before `&`, and between two that do `&` turns into `|`: 8 negations in place of 25.
// 25 lanes written out: with `array::from_fn` SHA3-256 ran at a quarter of its speed (docs/history/BENCHMARKS-other-forms.md).
// Each number `COPY` is code of its own, which the compiler can then put into its one place.
pub fn chi<const COPY: usize>(a: &[u64; 25]) -> [u64; 25]
    ensures { complement between_rounds result ≡ χ (complement «before_χ» a.now) }
{
    [
        a[0] ^ (a[1] | a[2]),
        a[1] ^ (!a[2] | a[3]),
        a[2] ^ (a[3] & a[4]),
        a[3] ^ (a[4] | a[0]),
        a[4] ^ (a[0] & a[1]),
        a[5] ^ (a[6] | a[7]),
        a[6] ^ (a[7] & a[8]),
        a[7] ^ (a[8] | !a[9]),
        a[8] ^ (a[9] | a[5]),
        a[9] ^ (a[5] & a[6]),
        a[10] ^ (a[11] | a[12]),
        a[11] ^ (a[12] & a[13]),
        a[12] ^ (!a[13] & a[14]),
        !(a[13] ^ (a[14] | a[10])),
        a[14] ^ (a[10] & a[11]),
        a[15] ^ (a[16] & a[17]),
        a[16] ^ (a[17] | a[18]),
        a[17] ^ (!a[18] | a[19]),
        !(a[18] ^ (a[19] & a[15])),
        a[19] ^ (a[15] | a[16]),
        a[20] ^ (!a[21] & a[22]),
        !(a[21] ^ (a[22] | a[23])),
        a[22] ^ (a[23] & a[24]),
        a[23] ^ (a[24] | a[20]),
        a[24] ^ (a[20] & a[21]),
    ]
}
