// Codes.
ghost use Rattle.std.specs.Prelude.{◌≡◌};
ghost use Rattle.domain.specs.Codes.{all_codes};

/// Is every number a code?
pub fn all_codes<const ORDER: u64>(codes: &[u64]) -> bool
    ensures { result ≡ all_codes ORDER codes.now }
{
    for c in codes {
        if *c >= ORDER {
            return false;
        }
    }
    true
}
