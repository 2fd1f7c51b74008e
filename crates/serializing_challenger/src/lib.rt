//! The serializing challenger: codes of a domain over any byte transcript.
#![tactic(auto)]

mod bits_of_code;
mod calls;
mod challenger;
mod grinding;
mod traits;

pub use bits_of_code::CodeBits;
use byte_transcript::ByteTranscript;
use domain::Domain;
use std::marker::PhantomData;

/// Observes and draws the codes of a domain as bytes of a transcript. It keeps no other state.
#[derive(Clone, Copy)]
pub struct SerializingChallenger32<D: Domain<ORDER>, T: ByteTranscript, const ORDER: u64> {
    domain: PhantomData<D>,
    inner: T,
    code: CodeBits<ORDER>,
}
