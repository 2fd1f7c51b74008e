// What is held, as definitions speak of it.

use refusal::limits::WIDEST_ROW;

/// What a duplex challenger holds: its row, the pending codes and the outputs not yet taken.
pub struct DuplexHeld {
    pub row: [u64; WIDEST_ROW],
    pub pending: [u64; WIDEST_ROW],
    pub outputs: [u64; WIDEST_ROW],
}
