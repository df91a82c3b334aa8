// The records of replay, and the calls that carry them out, aboard and on the ground, each with its answer printed.
#![tactic(auto)]

pub mod calls;
pub mod ground_calls;
pub mod records;
