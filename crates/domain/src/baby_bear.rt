// BabyBear.
ghost use Rattle.domain.specs.Modular.{baby_bear};

use crate::modulo::{square_modulo, sum_modulo};
use crate::{BABY_BEAR_ORDER, Domain};

/// The codes below 2013265921.
#[derive(Clone, Copy)]
pub struct BabyBear;

impl Domain<BABY_BEAR_ORDER> for BabyBear {
    ghost arithmetic = { baby_bear };

    fn single() -> u32 {
        27
    }

    fn add(a: u64, b: u64) -> u64 {
        sum_modulo(BABY_BEAR_ORDER, a, b)
    }

    fn stir(a: u64) -> u64 {
        square_modulo(BABY_BEAR_ORDER, a)
    }
}
