// Bytes.
ghost use Rattle.domain.specs.Modular.{bytes};

use crate::modulo::square_modulo;
use crate::{BYTES_ORDER, Domain};

/// The codes below 256.
#[derive(Clone, Copy)]
pub struct Bytes;

impl Domain<BYTES_ORDER> for Bytes {
    ghost arithmetic = { bytes };

    fn single() -> u32 {
        7
    }

    // A remainder by 256 is a mask, with no comparison.
    fn add(a: u64, b: u64) -> u64 {
        (a + b) % BYTES_ORDER
    }

    fn stir(a: u64) -> u64 {
        square_modulo(BYTES_ORDER, a)
    }
}
