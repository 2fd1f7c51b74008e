//! How many bits hold a code.
#![tactic(auto)]

ghost use Rattle.std.specs.Prelude.{◌≡◌, ◌≤◌};
ghost use Rattle.code_bits.specs.CodeBits.{code_bits, IsLeastBits};

use refusal::limits::GREATEST_SAMPLED_ORDER;

/// The least number of bits that hold every code of an order of at most `GREATEST_SAMPLED_ORDER`.
pub fn code_bits(order: u64) -> u64
    requires small { order ≤ GREATEST_SAMPLED_ORDER }
    ensures value { result ≡ code_bits order }
    ensures least { IsLeastBits order result }
    ensures few { result ≤ 32 }
{
    order.next_power_of_two().ilog2() as u64
}
