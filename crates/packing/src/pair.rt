// The numbers of a pair of domains.
ghost use Rattle.std.specs.Prelude.{◌≡◌, ◌<◌, ◌≤◌};

use crate::RadixPacking;
use crate::powers::{greatest_power, limbs, radix};
use refusal::limits::GREATEST_SAMPLED_ORDER;

impl<const SAMPLED: u64, const ORDER: u64> RadixPacking<SAMPLED, ORDER> {
    /// The numbers of a small sampled domain in a larger one.
    pub fn new() -> Self
        requires low { 2 ≤ SAMPLED }
        requires small { SAMPLED ≤ GREATEST_SAMPLED_ORDER }
        requires less { SAMPLED < ORDER }
    {
        RadixPacking {
            radix: radix(SAMPLED),
            limbs: limbs(SAMPLED, ORDER),
            digits: greatest_power(SAMPLED, ORDER),
        }
    }

    /// How many scalars a word takes.
    pub fn limbs(&self) -> usize
        ensures { result ≡ self.now.limbs }
    {
        self.limbs
    }

    /// How many scalars a word gives.
    pub fn digits(&self) -> usize
        ensures { result ≡ self.now.digits }
    {
        self.digits
    }
}
