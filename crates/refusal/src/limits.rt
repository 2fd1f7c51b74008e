// The limits that the questions ask for.

/// The most cells of a row that is made, WIDTH (10).
pub const WIDEST_ROW: usize = 64;

/// The most cells that a block is written to, RATE: a cell of the row is left for the tag (10).
pub const WIDEST_RATE: usize = WIDEST_ROW - 1;

/// The greatest order that is sampled, 2^32: its codes fit four bytes (11).
pub const GREATEST_SAMPLED_ORDER: u64 = 4294967296;

/// The most scalars that wait for a flush (13).
pub const LONGEST_BATCH: usize = 255;

/// The most rounds of a Ladder (14).
pub const MOST_ROUNDS: u64 = 16;

/// The most bytes of a hash challenger's input (15, 24).
pub const LONGEST_INPUT: usize = 1024;

/// Bits that are drawn are fewer than this: they fit a 64-bit number (20).
pub const BITS_LIMIT: u64 = 64;

/// The greatest draw limit (21).
pub const GREATEST_DRAW_LIMIT: u64 = 65535;
