// Sampling: numbers, their low bits, and bits without bias.
ghost use Rattle.std.specs.Prelude.{◌≡◌, ℕ, ◌^◌, ◌<◌, IfOk, Result};
ghost use Rattle.refusal.specs.declared.Refusal.{Refusal as RefusalT};
ghost use Rattle.challenger_traits.specs.Meaning.{Does, Reply, Drawing, bits_of};

use crate::Holding;
use refusal::Refusal;

/// Sampling one value.
pub trait CanSample<T>: Holding {
    /// What a sample is given: nothing, or a draw limit.
    type Given: Copy + Drop;

    // The value sampled, or the refusal, and what that leaves.
    ghost sample_of: { Self.Make → Self.Held → Self.Given
        → Reply (Result T RefusalT) (Self.Held) };

    fn sample(&mut self, given: Self::Given) -> Result<T, Refusal>
        ensures does { Does Self.make Self.held_value self.old self.new result
            (sample_of (Self.make self.old) (Self.held_value self.old) given) };
}

/// Drawing bits.
pub trait CanSampleBits: Holding {
    ghost drawing: { Self.Make → Drawing (Self.Held) };

    fn order(&self) -> u64
        ensures { result ≡ (drawing (Self.make self.now)).order };

    fn sample_bits(&mut self, bits: u64) -> Result<u64, Refusal>
        ensures does { Does Self.make Self.held_value self.old self.new result
            (bits_of (drawing (Self.make self.old)) (Self.held_value self.old) bits) }
        ensures below { IfOk result (λ value. value < 2 ^ bits) };
}

/// Sampling bits without bias, each bounded draw within a draw limit.
pub trait CanSampleUniformBits: Holding {
    // The bits sampled, or the refusal, and what that leaves: of the bits and the draw limit.
    ghost uniform_bits_of: { Self.Make → Self.Held → ℕ → ℕ
        → Reply (Result ℕ RefusalT) (Self.Held) };

    fn sample_uniform_bits(&mut self, bits: u64, limit: u64) -> Result<u64, Refusal>
        ensures does { Does Self.make Self.held_value self.old self.new result
            (uniform_bits_of (Self.make self.old) (Self.held_value self.old) bits limit) }
        ensures below { IfOk result (λ value. value < 2 ^ bits) };
}
