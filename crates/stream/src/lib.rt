// What both programs begin with, the records that both read, and the run from one to the next.
#![tactic(auto)]

pub mod kind;
pub mod record;
pub mod run;
pub mod session;
pub mod start;
