// Observing values and digests; codes one by one, over any way to observe one.
ghost use Rattle.std.specs.Prelude.{◌≡◌, ℕ, ◌<◌, List, Result};
ghost use Rattle.refusal.specs.declared.Refusal.{Refusal as RefusalT};
ghost use Rattle.challenger_traits.specs.Meaning.{Does, observe_of};
ghost use Rattle.challenger_traits.specs.Observing.{after_observe_codes};

use crate::Holding;
use domain::all_codes;
use refusal::Refusal;

/// Observing values: codes, or bytes.
pub trait CanObserve<T>: Holding {
    // What an observe leaves, or its refusal.
    ghost after_observe: { Self.Make → Self.Held → List T → Result (Self.Held) RefusalT };

    fn observe(&mut self, values: &[T]) -> Result<(), Refusal>
        ensures does { Does Self.make Self.held_value self.old self.new result
            (observe_of (after_observe (Self.make self.old) (Self.held_value self.old) values.now)
            (Self.held_value self.old)) };
}

/// Observing a digest, given as its values: codes, words or bytes.
pub trait CanObserveDigest<T>: Holding {
    // What observing a digest leaves, or its refusal.
    ghost after_observe_digest: { Self.Make → Self.Held → List T → Result (Self.Held) RefusalT };

    fn observe_digest(&mut self, digest: &[T]) -> Result<(), Refusal>
        ensures does { Does Self.make Self.held_value self.old self.new result
            (observe_of (after_observe_digest (Self.make self.old) (Self.held_value self.old)
            digest.now) (Self.held_value self.old)) };
}

/// Observing one code below `ORDER`.
pub trait CanObserveCode<const ORDER: u64>: Holding {
    // What a code leaves.
    ghost after_code: { Self.Make → Self.Held → ℕ → Self.Held };

    fn observe_code(&mut self, c: u64)
        requires code { c < ORDER }
        ensures left { Self.held_value self.new
            ≡ after_code (Self.make self.old) (Self.held_value self.old) c }
        ensures kept { Self.make self.new ≡ Self.make self.old };
}

/// Observes all the codes in turn, or none if a number among them is no code.
pub fn observe_codes<C: CanObserveCode<ORDER>, const ORDER: u64>(
    c: &mut C,
    codes: &[u64],
) -> Result<(), Refusal>
    ensures does { Does C.make C.held_value c.old c.new result
        (observe_of (after_observe_codes ORDER (C.after_code (C.make c.old)) (C.held_value c.old)
        codes.now) (C.held_value c.old)) }
{
    if !all_codes::<ORDER>(codes) {
        return Err(Refusal::NotCode);
    }
    for code in codes {
        c.observe_code(*code);
    }
    Ok(())
}
