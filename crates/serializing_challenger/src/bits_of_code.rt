// The bits of a code.
ghost use Rattle.std.specs.Prelude.{◌≡◌, ◌≤◌};
ghost use Rattle.refusal.specs.declared.limits.TheConstants.{GREATEST_SAMPLED_ORDER};
ghost use Rattle.code_bits.specs.CodeBits.{code_bits};

use refusal::limits::GREATEST_SAMPLED_ORDER;

/// How many bits hold a code of an order of at most `GREATEST_SAMPLED_ORDER`.
#[derive(Clone, Copy)]
pub struct CodeBits<const ORDER: u64> {
    pub(crate) bits: u64,
    ghost least: { bits ≡ code_bits ORDER },
    ghost few: { bits ≤ 32 },
    ghost small: { ORDER ≤ GREATEST_SAMPLED_ORDER },
}
