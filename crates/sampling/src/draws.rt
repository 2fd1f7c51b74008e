// Drawing values: their low bits, and bounded draws, where values are drawn until one is below a bound, within a limit.
ghost use Rattle.std.specs.Prelude.{◌≡◌, ℕ, ◌%◌, ◌^◌, ◌<◌, IfOk};
ghost use Rattle.challenger_traits.specs.Meaning.{Does, Reply, bits_of};
ghost use Rattle.sampling.specs.Draws.{is_draw_limit, draw_below, bits_drawing};

use challenger_traits::{Holding, bits_fit};
use refusal::Refusal;
use refusal::limits::GREATEST_DRAW_LIMIT;

/// Drawing one value: a code, or what a bounded draw takes or passes over.
pub trait CanDraw: Holding {
    // The value drawn, and what that leaves.
    ghost draw_of: { Self.Make → Self.Held → Reply ℕ (Self.Held) };

    fn draw(&mut self) -> u64
        ensures does { Does Self.make Self.held_value self.old self.new result
            (draw_of (Self.make self.old) (Self.held_value self.old)) };
}

/// Draws until a value is below the bound, at most once and `more` times. Refused, it tells the value drawn last and the bound.
pub fn draw_below<C: CanDraw>(c: &mut C, bound: u64, more: u64) -> Result<u64, (u64, u64)>
    ensures does { Does C.make C.held_value c.old c.new result
        (draw_below (C.draw_of (C.make c.old)) bound more (C.held_value c.old)) }
    ensures below { IfOk result (λ value. value < bound) }
{
    let mut rest = more;
    let accepted = loop {
        let value = c.draw();
        if value < bound {
            break value;
        }
        if rest == 0 {
            return Err((value, bound));
        }
        rest -= 1;
    };
    Ok(accepted)
}

/// Is the draw limit at least 1, and at most the greatest?
pub fn is_draw_limit(limit: u64) -> bool
    ensures { result ≡ is_draw_limit limit }
{
    1 <= limit && limit <= GREATEST_DRAW_LIMIT
}

/// The bits of a number: it is shifted by fewer.
pub const WORD_BITS: u64 = 64;

/// 2^bits.
pub fn power(bits: u64) -> u64
    requires few { bits < WORD_BITS }
    ensures { result ≡ 2 ^ bits }
{
    1 << bits
}

/// The low bits of a number.
pub fn low_bits(value: u64, bits: u64) -> u64
    requires few { bits < WORD_BITS }
    ensures value { result ≡ value % 2 ^ bits }
    ensures below { result < 2 ^ bits }
{
    value & (power(bits) - 1)
}

/// The low bits of one value drawn, once the bits are few enough for the order.
pub fn draw_bits<C: CanDraw>(c: &mut C, order: u64, bits: u64) -> Result<u64, Refusal>
    ensures does { Does C.make C.held_value c.old c.new result
        (bits_of (bits_drawing (C.draw_of (C.make c.old)) order) (C.held_value c.old) bits) }
    ensures below { IfOk result (λ value. value < 2 ^ bits) }
{
    if !bits_fit(order, bits) {
        return Err(Refusal::Bits);
    }
    Ok(low_bits(c.draw(), bits))
}
