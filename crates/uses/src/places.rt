// Draws with their bounds: no check is written, and none is made when they run.
ghost use Rattle.std.specs.Prelude.{◌<◌, Ok, slice_index, IfOk};
ghost use Rattle.challengers.specs.Meaning.{Does, reply, and_then};
ghost use Rattle.challengers.specs.Orders.{BABY_BEAR_ORDER};
ghost use Rattle.challengers.specs.Uniform.{uniform_of};
ghost use Rattle.challengers.specs.DuplexHolds.{make, held_value, make_meaning};
ghost use Rattle.challengers.specs.DuplexRules.{sample_of};
ghost use Rattle.challengers.specs.HashHolds.{make as hash_make, held_value as hash_held};
ghost use Rattle.challengers.specs.SerializingRules.{sample_of as serializing_sample_of};
ghost use Rattle.challengers.specs.Usual.{hash_bytes};

use challengers::{BabyBearDuplex, BabyBearHash, CanSampleUniformBits, Ladder, Refusal};

/// The entry, of 2^10, that ten uniform bits name.
pub fn drawn_place(
    c: &mut BabyBearDuplex<Ladder>,
    entries: &[u64; 1024],
    limit: u64,
) -> Result<u64, Refusal>
    ensures does { Does make held_value c.old c.new result (and_then
        (uniform_of (sample_of (make_meaning c.old)) BABY_BEAR_ORDER
        (make_meaning c.old).arithmetic.single (held_value c.old) 10 limit)
        (λ place left. reply (Ok (slice_index entries.now place)) left)) }
{
    let place = c.sample_uniform_bits(10, limit)?;
    Ok(entries[place as usize])
}

/// A sample of a serializing challenger, which is a code.
pub fn sampled_code(c: &mut BabyBearHash, limit: u64) -> Result<u64, Refusal>
    ensures does { Does (λ s. hash_make s.inner) (λ s. hash_held s.inner) c.old c.new result
        (serializing_sample_of BABY_BEAR_ORDER (hash_bytes (hash_make c.old.inner))
        (hash_held c.old.inner) limit) }
    ensures code { IfOk result (λ value. value < BABY_BEAR_ORDER) }
{
    c.sample(limit)
}
