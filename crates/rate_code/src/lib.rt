// The rate code: a count below 2^24 in sixteen bits, in two editions.
#![tactic(auto)]

pub mod code;
pub mod editions;
pub mod first;
pub mod second;
