// KoalaBear.
ghost use Rattle.domain.specs.Modular.{koala_bear};

use crate::modulo::{square_modulo, sum_modulo};
use crate::{Domain, KOALA_BEAR_ORDER};

/// The codes below 2130706433.
#[derive(Clone, Copy)]
pub struct KoalaBear;

impl Domain<KOALA_BEAR_ORDER> for KoalaBear {
    ghost arithmetic = { koala_bear };

    fn single() -> u32 {
        24
    }

    fn add(a: u64, b: u64) -> u64 {
        sum_modulo(KOALA_BEAR_ORDER, a, b)
    }

    fn stir(a: u64) -> u64 {
        square_modulo(KOALA_BEAR_ORDER, a)
    }
}
