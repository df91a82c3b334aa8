// A state as bytes, the most significant of a number first.
#![tactic(auto)]

pub mod judge;
pub mod layout;
pub mod read;
pub mod write;
