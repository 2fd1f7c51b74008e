// The numbers of a pair of domains.
ghost use Rattle.std.specs.Prelude.{◌≡◌, ◌≤◌};
ghost use Rattle.parts.specs.Helpers.{order_of, pair_numbers};

use code_bits::code_bits;
use packing::{greatest_power, limbs};
use refusal::Refusal;
use script::DomainName;

/// The order of a domain.
fn order_of(name: DomainName) -> u64
    ensures value { result ≡ order_of name }
    ensures low { 256 ≤ result }
{
    match name {
        DomainName::Bytes => 256,
        DomainName::BabyBear => 2013265921,
        DomainName::KoalaBear => 2130706433,
        DomainName::Goldilocks => 18446744069414584321,
    }
}

/// The radix bits, limbs and k of a sampled domain in a sponge's; refused if the sampled order is above 2^32.
pub fn pair_numbers(sampled: DomainName, domain: DomainName) -> Result<(u64, usize, usize), Refusal>
    ensures { result ≡ pair_numbers sampled domain }
{
    let small = order_of(sampled);
    let order = order_of(domain);
    if small > 4294967296 {
        return Err(Refusal::SampledOrder);
    }
    Ok((
        code_bits(small),
        limbs(small, order),
        greatest_power(small, order),
    ))
}
