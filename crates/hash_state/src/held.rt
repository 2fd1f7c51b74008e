// What is held, as definitions speak of it.

use hasher::LONGEST_DIGEST;
use refusal::limits::LONGEST_INPUT;

/// What a hash challenger holds: its input, and the outputs not yet taken.
pub struct HashHeld {
    pub input: [u8; LONGEST_INPUT],
    pub outputs: [u8; LONGEST_DIGEST],
}
