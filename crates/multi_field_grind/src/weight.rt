// What a scalar weighs.
ghost use Rattle.std.specs.Prelude.{◌≡◌, ◌*◌, ◌^◌, ◌<◌};
ghost use Rattle.code_bits.specs.CodeBits.{code_bits};

use code_bits::code_bits;
use packing::RadixPacking;
use sampling::power;

/// What a scalar of 1 weighs at this place of its word.
pub fn weight<const SAMPLED: u64, const ORDER: u64>(
    packing: &RadixPacking<SAMPLED, ORDER>,
    place: usize,
) -> u64
    requires inside { place < packing.now.limbs }
    ensures { result ≡ 2 ^ (code_bits SAMPLED * place) }
{
    power(code_bits(SAMPLED) * place as u64)
}
