//! The multi-field challenger: it samples in a small domain, and its sponge is over a larger one.
#![tactic(auto)]

ghost use Rattle.std.specs.Prelude.{◌≡◌, ◌*◌, ◌<◌, ◌≤◌, length};
ghost use Rattle.refusal.specs.declared.limits.TheConstants.{LONGEST_BATCH};
ghost use Rattle.buffer.specs.Items.{items};

use buffer::Buffer;
use domain::Domain;
use packing::{LONGEST_SQUEEZE_LIST, RadixPacking};
use permutation::CryptographicPermutation;
use refusal::limits::LONGEST_BATCH;
use sponge::Sponge;
use std::alloc::AllocError;
use std::marker::PhantomData;

mod calls;
mod challenger;
mod grinding;
mod held;
mod traits;

pub use held::MultiHeld;

/// The multi-field challenger: a sponge whose words are codes of `D`, the scalars of `F` that wait to be absorbed, and those that wait to be sampled.
#[derive(Copy, Drop)]
pub struct MultiField32Challenger<
    F: Domain<SAMPLED>,
    D: Domain<ORDER>,
    P: CryptographicPermutation<D, ORDER>,
    const SAMPLED: u64,
    const ORDER: u64,
> {
    sampled: PhantomData<F>,
    packing: RadixPacking<SAMPLED, ORDER>,
    sponge: Sponge<D, P, ORDER>,
    pending: Buffer<SAMPLED, LONGEST_BATCH>,
    squeeze: Buffer<SAMPLED, LONGEST_SQUEEZE_LIST>,
    ghost batch: { packing.limbs * sponge.rate ≤ LONGEST_BATCH },
    ghost room: { length (items pending) < packing.limbs * sponge.rate },
}

impl<
    F: Domain<SAMPLED>,
    D: Domain<ORDER>,
    P: CryptographicPermutation<D, ORDER> + Clone,
    const SAMPLED: u64,
    const ORDER: u64,
> Clone for MultiField32Challenger<F, D, P, SAMPLED, ORDER> {
    ghost is_clone = { λ s t. ⟦<Sponge<D, P, ORDER> as Clone>⟧.is_clone s.sponge t.sponge
        × (t.packing ≡ s.packing) × (t.pending ≡ s.pending) × (t.squeeze ≡ s.squeeze) };

    ghost is_infallible = { λ s. ⟦<Sponge<D, P, ORDER> as Clone>⟧.is_infallible s.sponge };

    fn clone(&self) -> Result<Self, AllocError> {
        Ok(MultiField32Challenger {
            sampled: PhantomData,
            packing: self.packing,
            sponge: self.sponge.clone()?,
            pending: self.pending,
            squeeze: self.squeeze,
        })
    }
}
