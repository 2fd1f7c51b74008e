//! The duplex challenger: a sponge that takes codes until its rate is full, and gives its rate back as outputs.
#![tactic(auto)]

ghost use Rattle.std.specs.Prelude.{◌≡◌, ◌<◌, length};
ghost use Rattle.buffer.specs.Items.{items};

use buffer::Buffer;
use domain::Domain;
use permutation::CryptographicPermutation;
use refusal::limits::WIDEST_ROW;
use sponge::Sponge;
use std::alloc::AllocError;

mod bytes;
mod calls;
mod challenger;
mod grinding;
mod held;
mod traits;

pub use bytes::{ByteDomain, UNBOUNDED_ROOM};
pub use held::DuplexHeld;

/// The duplex challenger over a domain and a permutation of its rows: a sponge, and the codes that wait to be absorbed.
#[derive(Copy, Drop)]
pub struct DuplexChallenger<
    D: Domain<ORDER>,
    P: CryptographicPermutation<D, ORDER>,
    const ORDER: u64,
> {
    sponge: Sponge<D, P, ORDER>,
    pending: Buffer<ORDER, WIDEST_ROW>,
    ghost room: { length (items pending) < sponge.rate },
}

impl<D: Domain<ORDER>, P: CryptographicPermutation<D, ORDER> + Clone, const ORDER: u64> Clone
    for DuplexChallenger<D, P, ORDER> {
    ghost is_clone = { λ s t. ⟦<Sponge<D, P, ORDER> as Clone>⟧.is_clone s.sponge t.sponge
        × (t.pending ≡ s.pending) };

    ghost is_infallible = { λ s. ⟦<Sponge<D, P, ORDER> as Clone>⟧.is_infallible s.sponge };

    fn clone(&self) -> Result<Self, AllocError> {
        Ok(DuplexChallenger {
            sponge: self.sponge.clone()?,
            pending: self.pending,
        })
    }
}
