//! The interface of challengers: what is held, observing, sampling, grinding above them, and the digest at the end.
#![tactic(auto)]

ghost use Rattle.std.specs.Prelude.{Bool, IsTrue};

mod finalizing;
mod grinding;
mod observing;
mod sampling;
mod search;

pub use finalizing::CanFinalizeDigest;
pub use grinding::{CanStartCheck, GrindingChallenger};
pub use observing::{CanObserve, CanObserveCode, CanObserveDigest, observe_codes};
pub use sampling::{CanSample, CanSampleBits, CanSampleUniformBits};
pub use search::{bits_fit, check_by_parts, grind_by_trial};

/// What making fixed, and what is held.
pub trait Holding {
    type Make;

    type Held;

    ghost make: { Self → Self.Make };

    ghost held_value: { Self → Self.Held };

    // The values that a challenger of a make can hold.
    ghost can_be_held: { Self.Make → Self.Held → Bool };

    // Each challenger holds one of them.
    ghost holds: { (c : Self) → IsTrue (can_be_held (make c) (held_value c)) };
}

/// A challenger over the codes of a domain: it observes them, and samples numbers and bits. That a number sampled is a code is a promise of each challenger's own `sample`.
pub trait FieldChallenger: CanObserve<u64> + CanSample<u64> + CanSampleBits {}
