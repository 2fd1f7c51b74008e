//! Grinding by a prepared record: all of a check but its witness is worked out once, and one test is left for each candidate.
#![tactic(auto)]

ghost use Rattle.std.specs.Prelude.{◌≡◌, ℕ, ◌<◌};
ghost use Rattle.challenger_traits.specs.Grinding.{at_make};
ghost use Rattle.prepared_grind.specs.Tests.{PredictsChecks};

use challenger_traits::{CanObserve, CanSampleBits, CanStartCheck};

mod block;
mod search;

pub use block::PreparedBlock;
pub use search::grind_prepared;

/// Preparing a check, and what it draws for each witness.
pub trait CanPrepareCheck: CanObserve<u64> + CanSampleBits + CanStartCheck {
    type Prepared: Copy;

    // What is drawn once the witness is observed.
    ghost drawn_value: { Self.Make → Self.Prepared → ℕ → ℕ };

    fn prepare_check(&self) -> Self::Prepared
        ensures { PredictsChecks (at_make Self.after_observe Self.drawing Self.check_start
            (Self.make self.now)) (Self.held_value self.now)
            (drawn_value (Self.make self.now) result) };

    fn drawn_value(&self, prepared: &Self::Prepared, witness: u64) -> u64
        requires code { witness < (Self.drawing (Self.make self.now)).order }
        ensures { result ≡ drawn_value (Self.make self.now) prepared.now witness };
}
