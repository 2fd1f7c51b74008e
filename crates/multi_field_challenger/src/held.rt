// What is held, as definitions speak of it.

use packing::LONGEST_SQUEEZE_LIST;
use refusal::limits::{LONGEST_BATCH, WIDEST_ROW};

/// What a multi-field challenger holds: its row, the pending scalars, the outputs not yet split, and the scalars not yet taken.
pub struct MultiHeld {
    pub row: [u64; WIDEST_ROW],
    pub pending: [u64; LONGEST_BATCH],
    pub outputs: [u64; WIDEST_ROW],
    pub squeeze: [u64; LONGEST_SQUEEZE_LIST],
}
