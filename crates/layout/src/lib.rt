// The numbers of the packed form. No code: the laws of proofs/ are what this crate is for.
#![tactic(auto)]

// A packed stamp has at most so many bytes.
pub const BYTES: usize = 117;

// Bits of a name's count, less one.
pub const COUNT_BITS: usize = 4;

// Bits of a string's length.
pub const LENGTH_BITS: usize = 5;
