// The records of minute, and the calls that carry them out.
#![tactic(auto)]

pub mod calls;
pub mod records;
