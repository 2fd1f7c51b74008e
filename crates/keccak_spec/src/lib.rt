//! The definition of the permutation Keccak-f[1600], as FIPS 202 gives it.
#![tactic(auto)]
