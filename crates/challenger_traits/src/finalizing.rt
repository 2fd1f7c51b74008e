// The digest at the end.
ghost use Rattle.std.specs.Prelude.{◌≡◌, ℕ, List};

use crate::Holding;

/// Ending a challenger with its digest.
pub trait CanFinalizeDigest: Holding {
    type Digest;

    // The numbers of a digest.
    ghost digest_numbers: { Self.Digest → List ℕ };

    // The numbers of the digest at the end.
    ghost digest_of: { Self.Make → Self.Held → List ℕ };

    fn finalize(self) -> Self::Digest
        ensures { digest_numbers result ≡ digest_of (Self.make self) (Self.held_value self) };
}
