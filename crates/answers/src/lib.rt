// The answers of replay, printed: a module for each thing that is printed.
#![tactic(auto)]

pub mod calls;
pub mod close;
pub mod listing;
pub mod packets;
