// Making the check, and what it draws.
ghost use Rattle.std.specs.Prelude.{◌≡◌, ℕ, ◌*◌, ◌<◌, ◌≤◌, [], ◌∷◌, ◌++◌, length};
ghost use Rattle.buffer.specs.Items.{items};
ghost use Rattle.sponge.specs.SpongeHeld.{held_value, make_meaning};
ghost use Rattle.code_bits.specs.CodeBits.{code_bits};
ghost use Rattle.packing.specs.Powers.{limbs};
ghost use Rattle.packing.specs.Packing.{packed_words};
ghost use Rattle.multi_field_blocks.specs.Blocks.{scalars_block_turn};
ghost use Rattle.multi_field_grind.specs.Scalars.{last_scalar, drawn_scalar_with};

use crate::PreparedScalar;
use crate::digit::last_digit;
use crate::weight::weight;
use buffer::Buffer;
use domain::Domain;
use packing::RadixPacking;
use permutation::CryptographicPermutation;
use prepared_grind::PreparedBlock;
use refusal::limits::{LONGEST_BATCH, WIDEST_ROW};
use sponge::Sponge;

/// The pending scalars, packed with a 0 in the witness's place.
fn words_before<const SAMPLED: u64, const ORDER: u64>(
    packing: &RadixPacking<SAMPLED, ORDER>,
    pending: &Buffer<SAMPLED, LONGEST_BATCH>,
) -> Buffer<ORDER, WIDEST_ROW>
    requires few { length (items pending.now) < LONGEST_BATCH }
    requires room { length (items pending.now) < packing.now.limbs * WIDEST_ROW }
    ensures value { items result ≡ packed_words (code_bits SAMPLED) (limbs SAMPLED ORDER)
        (items pending.now ++ (0 ∷ [])) }
    ensures some { 0 < length (items result) }
{
    let mut scalars = *pending;
    scalars.push(0);
    let mut words = Buffer::zeros(0);
    packing.pack_all(&mut words, &scalars);
    words
}

impl<const SAMPLED: u64, const ORDER: u64> PreparedScalar<SAMPLED, ORDER> {
    /// A block with a 0 in the witness's place, tagged by the number of the scalars, the witness among them.
    pub fn new<D: Domain<ORDER> + Copy, P: CryptographicPermutation<D, ORDER> + Copy>(
        packing: &RadixPacking<SAMPLED, ORDER>,
        sponge: &Sponge<D, P, ORDER>,
        pending: &Buffer<SAMPLED, LONGEST_BATCH>,
    ) -> Self
        requires room { length (items pending.now) < packing.now.limbs * sponge.now.rate }
        requires batch { packing.now.limbs * sponge.now.rate ≤ LONGEST_BATCH }
        requires low { 256 ≤ SAMPLED }
        ensures { (w : ℕ) → w < SAMPLED → drawn_scalar_with (make_meaning sponge.now).image result w
            ≡ last_scalar SAMPLED ORDER (scalars_block_turn SAMPLED (make_meaning sponge.now)
            (held_value sponge.now).row (items pending.now ++ (w ∷ []))).outputs }
    {
        let words = words_before(packing, pending);
        PreparedScalar {
            block: PreparedBlock::new(sponge, &words, pending.len() as u64 + 1),
            rest: words.get(words.len() - 1),
            weight: weight(packing, pending.len() % packing.limbs()),
            digits: packing.digits(),
        }
    }

    /// What is drawn once the witness is observed: it is put into its word by its weight there, and the last digit of the last output is taken.
    pub fn drawn_scalar<D: Domain<ORDER>, P: CryptographicPermutation<D, ORDER>>(
        &self,
        permutation: &P,
        witness: u64,
    ) -> u64
        requires code { witness < SAMPLED }
        ensures { result ≡ drawn_scalar_with (P.image permutation.now) self.now witness }
    {
        let word = self.rest + witness * self.weight;
        last_digit::<SAMPLED>(
            self.block.last_output::<D, P>(permutation, word),
            self.digits,
        )
    }
}
