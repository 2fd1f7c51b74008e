// The calls that lines ask for.
ghost use Rattle.std.specs.Prelude.{◌≡◌, Some, None, IfOk, MatchResult, vec_items};
ghost use Rattle.std.specs.Option.{option_map};
ghost use Rattle.played.specs.declared.dialect.Unfit.TheVariants.{NotBytes};
ghost use Rattle.script.specs.Meaning.{meaning};
ghost use Rattle.played.specs.Requests.{as_bytes, bytes_said, called, plainly, sampling};

use crate::{Dialect, Unfit};
use domain::all_codes;
use runs::Call;
use script::Line;
use std::alloc::{AllocError, Global};

/// A line, and the numbers of an observe or a digest as bytes, if they are.
#[derive(Drop)]
pub struct Request {
    line: Line,
    bytes: Option<Vec<u8>>,
    ghost lent: { option_map vec_items bytes ≡ bytes_said (meaning line) },
}

/// The numbers as bytes, if all are below 256.
fn as_bytes(heap: Global, numbers: &[u64]) -> Result<Option<Vec<u8>>, AllocError>
    ensures { IfOk result (λ bytes. option_map vec_items bytes ≡ as_bytes numbers.now) }
{
    if !all_codes::<256>(numbers) {
        return Ok(None);
    }
    // A remainder needs no proof that it fits a byte.
    let bytes = numbers
        .iter()
        .map(|number| (*number % 256) as u8)
        .collect(heap)?;
    Ok(Some(bytes))
}

/// A sample, with a draw limit where one is taken.
fn sample(dialect: Dialect, limit: Option<u64>) -> Result<Option<Call<'static>>, Unfit>
    ensures { plainly result ≡ sampling dialect limit }
{
    match (dialect, limit) {
        (Dialect::Serializing, Some(limit)) => Ok(Some(Call::SampleWithin(limit))),
        (Dialect::Codes | Dialect::Bytes, None) => Ok(Some(Call::Sample)),
        _ => Err(Unfit::Limit),
    }
}

impl Request {
    /// The line as a request.
    pub fn new(heap: Global, line: Line) -> Result<Self, AllocError>
        ensures { IfOk result (λ r. meaning r.line ≡ meaning line) }
    {
        let bytes = match &line {
            Line::Observe(numbers) | Line::Digest(numbers) => as_bytes(heap, numbers.as_slice())?,
            _ => None,
        };
        Ok(Request { line, bytes })
    }

    /// The bytes to be lent.
    fn bytes(&self) -> Result<&[u8], Unfit>
        ensures { MatchResult result (λ b. Some b.now ≡ bytes_said (meaning self.now.line))
            (λ e. (None ≡ bytes_said (meaning self.now.line)) × (e ≡ NotBytes)) }
    {
        match &self.bytes {
            Some(bytes) => Ok(bytes.as_slice()),
            None => Err(Unfit::NotBytes),
        }
    }

    /// The call that the line asks for, if any.
    pub fn call(&self, dialect: Dialect) -> Result<Option<Call<'_>>, Unfit>
        ensures { plainly result ≡ called dialect (meaning self.now.line) }
    {
        Ok(Some(match &self.line {
            Line::Observe(codes) => match dialect {
                Dialect::Bytes => Call::ObserveBytes(self.bytes()?),
                _ => Call::Observe(codes.as_slice()),
            },
            Line::Digest(words) => match dialect {
                Dialect::Codes => Call::ObserveDigest(words.as_slice()),
                _ => Call::ObserveDigestBytes(self.bytes()?),
            },
            Line::Digest64(words) => Call::ObserveDigestWords(words.as_slice()),
            Line::Sample(limit) => return sample(dialect, *limit),
            Line::Bits(bits) => Call::SampleBits(*bits),
            Line::Uniform(bits, limit) => Call::UniformBits(*bits, *limit),
            Line::Check(bits, witness) => Call::CheckWitness(*bits, *witness),
            Line::Grind(bits, budget) => Call::Grind(*bits, *budget),
            _ => return Ok(None),
        }))
    }
}
