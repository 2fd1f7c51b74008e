//! The steps ρ and π of the permutation Keccak-f[1600]. The lane (x, y) of the state stands at x + 5 * y.
#![tactic(auto)]

ghost use Rattle.std.specs.Prelude.{◌≡◌};
ghost use Rattle.keccak_spec.specs.Keccak.{ρπ};

/// Each lane from its source lane, rotated by that one's offset.
// 25 lanes written out: with `array::from_fn` SHA3-256 ran at a quarter of its speed (docs/history/BENCHMARKS-other-forms.md).
// Each number `COPY` is code of its own, which the compiler can then put into its one place.
pub fn rho_pi<const COPY: usize>(a: &[u64; 25]) -> [u64; 25]
    ensures { result ≡ ρπ a.now }
{
    [
        a[0].rotate_left(0),
        a[6].rotate_left(44),
        a[12].rotate_left(43),
        a[18].rotate_left(21),
        a[24].rotate_left(14),
        a[3].rotate_left(28),
        a[9].rotate_left(20),
        a[10].rotate_left(3),
        a[16].rotate_left(45),
        a[22].rotate_left(61),
        a[1].rotate_left(1),
        a[7].rotate_left(6),
        a[13].rotate_left(25),
        a[19].rotate_left(8),
        a[20].rotate_left(18),
        a[4].rotate_left(27),
        a[5].rotate_left(36),
        a[11].rotate_left(10),
        a[17].rotate_left(15),
        a[23].rotate_left(56),
        a[2].rotate_left(62),
        a[8].rotate_left(55),
        a[14].rotate_left(39),
        a[15].rotate_left(41),
        a[21].rotate_left(2),
    ]
}
