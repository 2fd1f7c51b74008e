// The state.
ghost use Rattle.std.specs.Prelude.{◌≡◌, ◌≤◌, ◌||◌, ◌==◌, nat_le, IsTrue, IsFalse};
ghost use Rattle.hasher.specs.declared.TheConstants.{LONGEST_DIGEST};

use crate::ByteList;
use hasher::{CryptographicHasher, LONGEST_DIGEST};
use refusal::Refusal;
use refusal::limits::LONGEST_INPUT;

/// The input, whose first `left` bytes are the outputs not yet taken: after a draw both come from one digest.
// A list of outputs would hold the same bytes again.
#[derive(Clone, Copy)]
pub struct HashState {
    pub(crate) input: ByteList,
    left: usize,
    ghost some: { left ≤ input.count },
    ghost drawn: { IsTrue (left == 0 || nat_le input.count LONGEST_DIGEST) },
}

impl HashState {
    ghost use Rattle.std.specs.Prelude.{◌≡◌, ℕ, ◌+◌, ◌<◌, ◌≤◌, List, length};
    ghost use Rattle.std.specs.Prelude.{nat_le};
    ghost use Rattle.refusal.specs.Made.{MadeUnless};
    ghost use Rattle.challenger_traits.specs.Meaning.{observe_of};
    ghost use Rattle.hash_state.specs.Rules.{initial_no, hash_held, fresh_value, room, can_be_held};
    ghost use Rattle.hash_state.specs.Rules.{after_append, after_observe, with_output, sample_of};
    ghost use Rattle.hash_state.specs.Rules.{last_output, without_output};
    ghost use Rattle.hash_state.specs.Holds.{held_value};

    /// The initial bytes and no output; refused if there are more than `LONGEST_INPUT`.
    pub fn new(initial: &[u8]) -> Result<HashState, Refusal>
        ensures { MadeUnless (initial_no initial.now)
            (λ s. held_value s ≡ fresh_value initial.now) result }
    {
        let input = ByteList::new(initial).ok_or(Refusal::InitialState)?;
        Ok(HashState { input, left: 0 })
    }

    /// How many bytes may still be observed.
    pub fn room(&self) -> usize
        ensures { result ≡ room (held_value self.now) }
    {
        self.input.room()
    }

    /// Appends bytes that fit, and drops the outputs; no bytes change nothing.
    fn append(&mut self, bytes: &[u8])
        requires fits { self.old.input.count + length bytes.now ≤ LONGEST_INPUT }
        ensures { held_value self.new ≡ after_append (held_value self.old) bytes.now }
    {
        if bytes.is_empty() {
            return;
        }
        self.left = 0;
        self.input.append(bytes);
    }

    /// Observes all the bytes, or none if they exceed the room.
    pub fn observe(&mut self, bytes: &[u8]) -> Result<(), Refusal>
        ensures said { result ≡ (observe_of (after_observe (held_value self.old) bytes.now)
            (held_value self.old)).said }
        ensures left { held_value self.new ≡ (observe_of
            (after_observe (held_value self.old) bytes.now) (held_value self.old)).left }
    {
        if bytes.len() > self.room() {
            return Err(Refusal::Room);
        }
        self.append(bytes);
        Ok(())
    }

    /// With no output left, the input and the outputs become the digest of the input.
    fn ensure_output<H: CryptographicHasher<N>, const N: usize>(&mut self, hasher: &H)
        ensures state { held_value self.new
            ≡ with_output (H.digest hasher.now) (held_value self.old) }
        ensures some { 0 < self.new.left }
    {
        if self.left > 0 {
            return;
        }
        let digest = hasher.hash(self.input());
        self.input.replace(&digest);
        self.left = N;
    }

    /// Takes the last output.
    fn pop(&mut self) -> u8
        requires some { 0 < self.old.left }
        ensures value { result ≡ last_output (held_value self.old) }
        ensures state { held_value self.new ≡ without_output (held_value self.old) }
    {
        self.left -= 1;
        self.input.as_slice()[self.left]
    }

    /// The last output, after a draw if none is left. What is held is one of the values that can be.
    pub fn sample<H: CryptographicHasher<N>, const N: usize>(&mut self, hasher: &H) -> u8
        ensures said { result ≡ (sample_of (H.digest hasher.now) (held_value self.old)).said }
        ensures left { held_value self.new
            ≡ (sample_of (H.digest hasher.now) (held_value self.old)).left }
        ensures can_be_held { IsTrue (can_be_held (held_value self.old)) }
    {
        self.ensure_output::<H, N>(hasher);
        self.pop()
    }

    /// The input, to be read.
    pub fn input(&self) -> &[u8]
        ensures { result.now ≡ (held_value self.now).input }
    {
        self.input.as_slice()
    }

    /// The outputs not yet taken, to be read.
    pub fn outputs(&self) -> &[u8]
        ensures { result.now ≡ (held_value self.now).outputs }
    {
        &self.input.as_slice()[..self.left]
    }
}
