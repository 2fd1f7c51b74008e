// What is held, observing, sampling, and the digest at the end.
ghost use Rattle.std.specs.Prelude.{◌≡◌};
ghost use Rattle.challenger_traits.specs.Meaning.{never_refused};
ghost use Rattle.hash_state.specs.Rules.{after_observe as after_observe_of, can_be_held};
ghost use Rattle.hash_state.specs.Rules.{sample_of as draw_of_held};
ghost use Rattle.hash_state.specs.HeldProofs.{in_memory};
ghost use Rattle.hash_challenger.specs.Holds.{held_value as held_in, make as make_of};

use crate::HashChallenger;
use challenger_traits::{CanFinalizeDigest, CanObserve, CanObserveDigest, CanSample, Holding};
use hash_state::HashHeld;
use hasher::CryptographicHasher;
use refusal::Refusal;

impl<H: CryptographicHasher<N>, const N: usize> Holding for HashChallenger<H, N> {
    type Make = H;

    type Held = HashHeld;

    ghost make = { make_of };

    ghost held_value = { held_in };

    ghost can_be_held = { λ _. can_be_held };

    ghost holds = { λ s. in_memory s.state };
}

impl<H: CryptographicHasher<N>, const N: usize> CanObserve<u8> for HashChallenger<H, N> {
    ghost after_observe = { λ _. after_observe_of };

    // All the bytes are observed, or none if they exceed the room.
    fn observe(&mut self, bytes: &[u8]) -> Result<(), Refusal> {
        self.state.observe(bytes)
    }
}

impl<H: CryptographicHasher<N>, const N: usize> CanObserveDigest<u8> for HashChallenger<H, N> {
    ghost after_observe_digest = { λ _. after_observe_of };

    // A digest is its bytes.
    fn observe_digest(&mut self, digest: &[u8]) -> Result<(), Refusal> {
        self.observe(digest)
    }
}

impl<H: CryptographicHasher<N>, const N: usize> CanSample<u8> for HashChallenger<H, N> {
    type Given = ();

    ghost sample_of = { λ h v _. never_refused (draw_of_held (H.digest h) v) };

    fn sample(&mut self, _: ()) -> Result<u8, Refusal> {
        Ok(self.sample())
    }
}

impl<H: CryptographicHasher<N> + Drop, const N: usize> CanFinalizeDigest for HashChallenger<H, N> {
    type Digest = [u8; N];

    ghost digest_numbers = { λ d. d };

    ghost digest_of = { λ h v. H.digest h v.input };

    fn finalize(self) -> [u8; N] {
        self.finalize()
    }
}
