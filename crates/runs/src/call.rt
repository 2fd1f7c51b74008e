// The calls of a challenger.

/// One call.
#[derive(Clone, Copy, PartialEq, Eq, Debug)]
pub enum Call<'a> {
    Observe(&'a [u64]),
    ObserveDigest(&'a [u64]),
    ObserveBytes(&'a [u8]),
    ObserveDigestBytes(&'a [u8]),
    /// A digest of 64-bit words, as bytes.
    ObserveDigestWords(&'a [u64]),
    Sample,
    /// The draw limit.
    SampleWithin(u64),
    /// Bits.
    SampleBits(u64),
    /// Bits and the draw limit.
    UniformBits(u64, u64),
    /// Bits and the witness.
    CheckWitness(u64, u64),
    /// Bits and the budget.
    Grind(u64, u64),
}
