// Bytes in lent buffers: big-endian numbers and runs of bytes, written and read, and the sum of bytes; words; single bits.
#![tactic(auto)]

pub mod bits;
pub mod number;
pub mod read;
pub mod words;
pub mod write;
