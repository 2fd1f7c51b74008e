// The orders of the four domains.

pub const BYTES_ORDER: u64 = 256;

pub const BABY_BEAR_ORDER: u64 = 2013265921;

pub const KOALA_BEAR_ORDER: u64 = 2130706433;

pub const GOLDILOCKS_ORDER: u64 = 18446744069414584321;
