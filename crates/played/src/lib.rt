//! Challengers as scripts play them: the calls that lines ask for, and what is printed of a challenger.
#![tactic(auto)]

ghost use Rattle.std.specs.Prelude.{◌≡◌, ℕ, List, IfOk, Option, string_bytes};
ghost use Rattle.played.specs.declared.dialect.Dialect.{Dialect as DialectT};

mod dialect;
mod hashes;
mod making;
mod named;
mod request;
mod serial;
mod sponges;

use challenger_traits::Holding;
pub use dialect::{Dialect, Unfit};
pub use making::{
    NamedHash, make_duplex, make_hash, make_multi, make_serial_duplex, make_serial_hash,
};
pub use named::{named_hasher, named_permutation};
pub use request::Request;
use runs::{CanTakeCalls, MadeLike};
use std::alloc::{AllocError, Global};

/// What is printed of a challenger.
pub trait Shown: Holding {
    // What is printed of a held value.
    ghost shown: { Self.Held → List ℕ };

    // What is printed of the digest at the end.
    ghost ending: { Self.Make → Self.Held → List ℕ };

    /// What it holds, as text.
    fn held(&self, heap: Global) -> Result<String, AllocError>
        ensures { IfOk result (λ text. string_bytes text ≡ shown (Self.held_value self.now)) };

    /// Its digest, if it were finalized now, as text.
    fn digest(&self, heap: Global) -> Result<String, AllocError>
        ensures { IfOk result (λ text. string_bytes text
            ≡ ending (Self.make self.now) (Self.held_value self.now)) };
}

/// A challenger that a script plays, with a prover's and a verifier's alike.
pub trait Played: CanTakeCalls + Shown + MadeLike<Self> {
    // What the numbers of its lines are.
    ghost speaks: { DialectT };

    // What `find` gives, if it has that call.
    ghost found: { Self.Make → Self.Held → ℕ → ℕ → Option (Option ℕ) };

    /// What the numbers of its lines are.
    fn dialect(&self) -> Dialect
        ensures { result ≡ speaks };

    /// The least candidate, or none; None if it has no such call.
    fn find(&self, candidates: u64, mask: u64) -> Option<Option<u64>>
        ensures { result ≡ found (Self.make self.now) (Self.held_value self.now) candidates mask };

    // A make means the same as itself.
    ghost means_itself: { (k : Self.Make) → Self.MadeLike.same_meaning k k };
}
