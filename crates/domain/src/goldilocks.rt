// Goldilocks.
ghost use Rattle.domain.specs.Modular.{goldilocks};

use crate::modulo::sum_modulo;
use crate::{Domain, GOLDILOCKS_ORDER};

/// The codes below 18446744069414584321.
#[derive(Clone, Copy)]
pub struct Goldilocks;

impl Domain<GOLDILOCKS_ORDER> for Goldilocks {
    ghost arithmetic = { goldilocks };

    fn single() -> u32 {
        32
    }

    fn add(a: u64, b: u64) -> u64 {
        sum_modulo(GOLDILOCKS_ORDER, a, b)
    }

    fn stir(a: u64) -> u64 {
        (a % 4294967296) * (a / 4294967296)
    }
}
