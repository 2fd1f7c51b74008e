// One digit of a word.
ghost use Rattle.std.specs.Prelude.{◌≡◌, ◌≤◌};
ghost use Rattle.sponge.specs.Sponge.{last_output};
ghost use Rattle.packing.specs.Packing.{digits_of};

/// The last of the digits that a word is split into: all lower ones are divided away.
pub fn last_digit<const SAMPLED: u64>(word: u64, digits: usize) -> u64
    requires low { 2 ≤ SAMPLED }
    requires some { 1 ≤ digits }
    ensures { result ≡ last_output (digits_of SAMPLED digits word) }
{
    let mut rest = word;
    for _ in 1..digits {
        rest /= SAMPLED;
    }
    rest % SAMPLED
}
