// Bits without bias, over any way to draw codes.
ghost use Rattle.std.specs.Prelude.{◌≡◌, ℕ, ◌+◌, ◌*◌, ◌^◌, ◌<◌, ◌≤◌, IfOk};
ghost use Rattle.challenger_traits.specs.Meaning.{Does};
ghost use Rattle.sampling.specs.Uniform.{sampling_bound, part_of, parts_of, uniform_of};

use crate::{CanDraw, WORD_BITS, draw_below, is_draw_limit, low_bits, power};
use challenger_traits::bits_fit;
use refusal::Refusal;

/// The greatest multiple of 2^bits that is at most the order.
fn sampling_bound(order: u64, bits: u64) -> u64
    requires few { bits < WORD_BITS }
    ensures { result ≡ sampling_bound order bits }
{
    order - order % power(bits)
}

/// A low part of `bits` bits below a high one of `more`.
fn join(low: u64, high: u64, bits: u64, more: u64) -> u64
    requires low { low < 2 ^ bits }
    requires high { high < 2 ^ more }
    requires few { bits + more < WORD_BITS }
    ensures value { result ≡ low + high * 2 ^ bits }
    ensures below { result < 2 ^ (bits + more) }
{
    low + high * power(bits)
}

// Takes the numbers one by one: any order and any `single` serve.
/// The low bits of one bounded draw within the limit.
#[tactic(auto, unfolding(crate::specs::Uniform::part_of))]
fn draw_part<C: CanDraw>(c: &mut C, order: u64, bits: u64, limit: u64) -> Result<u64, (u64, u64)>
    requires few { bits < WORD_BITS }
    requires some { 1 ≤ limit }
    ensures does { Does C.make C.held_value c.old c.new result
        (part_of (C.draw_of (C.make c.old)) order bits limit (C.held_value c.old)) }
    ensures below { IfOk result (λ v. v < 2 ^ bits) }
{
    let value = draw_below(c, sampling_bound(order, bits), limit - 1)?;
    Ok(low_bits(value, bits))
}

/// Up to `single` bits one part, above it the low half first and then the rest.
#[tactic(auto, unfolding(crate::specs::Uniform::parts_of))]
fn draw_parts<C: CanDraw>(
    c: &mut C,
    order: u64,
    single: u64,
    bits: u64,
    limit: u64,
) -> Result<u64, (u64, u64)>
    requires few { bits < WORD_BITS }
    requires some { 1 ≤ limit }
    ensures does { Does C.make C.held_value c.old c.new result
        (parts_of (C.draw_of (C.make c.old)) order single bits limit (C.held_value c.old)) }
    ensures below { IfOk result (λ v. v < 2 ^ bits) }
{
    if bits <= single {
        return draw_part(c, order, bits, limit);
    }
    let half = bits / 2;
    let low = draw_part(c, order, half, limit)?;
    let high = draw_part(c, order, bits - half, limit)?;
    Ok(join(low, high, half, bits - half))
}

/// Bits without bias from codes of an order, each bounded draw within the limit; at bits 0 it gives 0 and moves nothing.
#[tactic(auto, unfolding(crate::specs::Uniform::uniform_of))]
pub fn uniform_bits<C: CanDraw>(
    c: &mut C,
    order: u64,
    single: u64,
    bits: u64,
    limit: u64,
) -> Result<u64, Refusal>
    ensures does { Does C.make C.held_value c.old c.new result
        (uniform_of (C.draw_of (C.make c.old)) order single (C.held_value c.old) bits limit) }
    ensures below { IfOk result (λ value. value < 2 ^ bits) }
{
    if !bits_fit(order, bits) {
        return Err(Refusal::Bits);
    }
    if bits == 0 {
        return Ok(0);
    }
    if !is_draw_limit(limit) {
        return Err(Refusal::DrawLimit);
    }
    draw_parts(c, order, single, bits, limit).map_err(|(value, bound)| Refusal::ResamplingError(
        value, bound,
    ))
}
