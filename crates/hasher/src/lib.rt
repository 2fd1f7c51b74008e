//! Hash functions on bytes, by what they mean.
#![tactic(auto)]

ghost use Rattle.std.specs.Prelude.{◌≡◌, ℕ, ◌+◌, ◌-◌, ◌<◌, ◌≤◌, List, ◌∷◌, ◌++◌, length, replicate};
ghost use Rattle.std.proofs.Math.Seq.{paste};
ghost use Rattle.hasher.specs.Hashing.{IsHashFunction};

/// The most bytes of a digest.
pub const LONGEST_DIGEST: usize = 64;

/// A hash function whose digests have `N` bytes.
pub trait CryptographicHasher<const N: usize> {
    // The digest that a hasher gives of a list of bytes. Its value may carry a key, or be a choice among hash functions.
    ghost digest: { Self → List ℕ → List ℕ };

    // What each hash function must prove.
    ghost hashing: { (h : Self) → IsHashFunction N (digest h) };

    /// The digest of the input.
    fn hash(&self, input: &[u8]) -> [u8; N]
        ensures { result ≡ digest self.now input.now };
}

/// Writes `from` into `to` at the place `at`; where there is no room it writes nothing.
pub fn put(to: &mut [u8], at: usize, from: &[u8])
    ensures written { at + length from.now ≤ length to.old
        → to.new ≡ paste to.old at from.now (length from.now) }
    ensures no_room { length to.old < at + length from.now → to.new ≡ to.old }
{
    if at <= to.len() && from.len() <= to.len() - at {
        to[at..at + from.len()].copy_from_slice(from);
    }
}

/// The bytes of `rest`, then `mark`, then zeros: how a last block begins.
pub fn marked_block<const N: usize>(rest: &[u8], mark: u8) -> [u8; N]
    requires { length rest.now < N }
    ensures { result ≡ rest.now ++ mark ∷ replicate (N - 1 - length rest.now) 0 }
{
    let mut block = [0; N];
    put(&mut block, 0, rest);
    block[rest.len()] = mark;
    block
}
