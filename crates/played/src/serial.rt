// The serializing challenger: what is printed is its transcript's.
ghost use Rattle.std.specs.Prelude.{None};
ghost use Rattle.byte_transcript.specs.SameTranscriptProofs.{same_transcript};
ghost use Rattle.played.specs.declared.dialect.Dialect.TheVariants.{Serializing};

use crate::{Dialect, Played, Shown};
use byte_transcript::{ByteGrindingChallenger, ByteTranscript};
use domain::Domain;
use serializing_challenger::SerializingChallenger32;
use std::alloc::{AllocError, Global};

impl<D: Domain<ORDER>, T: ByteTranscript + Shown, const ORDER: u64> Shown
    for SerializingChallenger32<D, T, ORDER> {
    ghost shown = { T.shown };

    ghost ending = { T.ending };

    fn held(&self, heap: Global) -> Result<String, AllocError> {
        self.inner().held(heap)
    }

    fn digest(&self, heap: Global) -> Result<String, AllocError> {
        self.inner().digest(heap)
    }
}

impl<D: Domain<ORDER> + Copy, T: ByteGrindingChallenger + Shown + Copy, const ORDER: u64> Played
    for SerializingChallenger32<D, T, ORDER> {
    ghost speaks = { Serializing };

    ghost found = { λ k h n mask. None };

    fn dialect(&self) -> Dialect {
        Dialect::Serializing
    }

    fn find(&self, _candidates: u64, _mask: u64) -> Option<Option<u64>> {
        None
    }

    ghost means_itself = { λ k. same_transcript (T.meaning k) };
}
