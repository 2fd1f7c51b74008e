//! Domains: the whole numbers below an order, with an addition and a stir.
#![tactic(auto)]

ghost use Rattle.std.specs.Prelude.{◌≡◌, ◌<◌};
ghost use Rattle.domain.specs.Arithmetic.{Arithmetic};

mod baby_bear;
mod bytes;
mod codes;
mod goldilocks;
mod koala_bear;
mod modulo;
mod orders;

pub use baby_bear::BabyBear;
pub use bytes::Bytes;
pub use codes::all_codes;
pub use goldilocks::Goldilocks;
pub use koala_bear::KoalaBear;
pub use orders::{BABY_BEAR_ORDER, BYTES_ORDER, GOLDILOCKS_ORDER, KOALA_BEAR_ORDER};

/// A domain of the codes below `ORDER`.
pub trait Domain<const ORDER: u64> {
    // What the domain means.
    ghost arithmetic: { Arithmetic ORDER };

    // Up to so many bits next to no code lies at or above the bound of a draw, so that a draw is hardly ever repeated.
    /// The most bits that one code gives where bits are drawn uniformly.
    fn single() -> u32
        ensures { result ≡ arithmetic.single };

    /// The sum of two codes.
    fn add(a: u64, b: u64) -> u64
        requires left { a < ORDER }
        requires right { b < ORDER }
        ensures { result ≡ arithmetic.add a b };

    /// The stir of a code.
    fn stir(a: u64) -> u64
        requires code { a < ORDER }
        ensures { result ≡ arithmetic.stir a };
}
