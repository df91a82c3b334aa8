// What a reader finds in a packet, and why one is refused.
#![tactic(auto)]

pub mod faults;
pub mod fields;
pub mod kind;
pub mod limits;
