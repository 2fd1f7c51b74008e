// Greatest powers, and how many scalars a word takes.
ghost use Rattle.std.specs.Prelude.{◌≡◌, ◌^◌, ◌≤◌};
ghost use Rattle.code_bits.specs.CodeBits.{code_bits};
ghost use Rattle.packing.specs.Powers.{limbs, greatest_power, IsGreatestPower, IsLimbs};

use refusal::limits::GREATEST_SAMPLED_ORDER;

// These make the numbers of a pair of domains; `RadixPacking` has the facts from then on.
/// The greatest n with base^n at most the order.
pub fn greatest_power(base: u64, order: u64) -> usize
    requires base { 2 ≤ base }
    requires some { 1 ≤ order }
    ensures value { result ≡ greatest_power base order }
    ensures greatest { IsGreatestPower base order result }
{
    order.ilog(base) as usize
}

/// The power of two by which a scalar weighs more than the one before it.
pub fn radix(sampled: u64) -> u64
    requires small { sampled ≤ GREATEST_SAMPLED_ORDER }
    ensures { result ≡ 2 ^ code_bits sampled }
{
    sampled.next_power_of_two()
}

/// How many scalars a word takes.
pub fn limbs(sampled: u64, order: u64) -> usize
    requires low { 2 ≤ sampled }
    requires small { sampled ≤ GREATEST_SAMPLED_ORDER }
    requires some { 1 ≤ order }
    ensures value { result ≡ limbs sampled order }
    ensures words { IsLimbs sampled order result }
{
    let n = greatest_power(radix(sampled), order);
    n.max(1)
}
