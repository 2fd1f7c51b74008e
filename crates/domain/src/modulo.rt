// Addition and squaring modulo an order.
ghost use Rattle.std.specs.Prelude.{◌≡◌, ◌^◌, ◌<◌, ◌≤◌};
ghost use Rattle.domain.specs.Operations.{sum, square};

/// The sum of two codes, modulo the order.
pub(crate) fn sum_modulo(order: u64, a: u64, b: u64) -> u64
    requires left { a < order }
    requires right { b < order }
    ensures { result ≡ sum order a b }
{
    if a < order - b {
        a + b
    } else {
        a - (order - b)
    }
}

/// The square of a code, modulo an order of at most 2^32.
pub(crate) fn square_modulo(order: u64, a: u64) -> u64
    requires code { a < order }
    requires small { order ≤ 2 ^ 32 }
    ensures { result ≡ square order a }
{
    a * a % order
}
