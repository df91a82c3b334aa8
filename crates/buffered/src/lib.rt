// What stands between a program and the system: reads and writes, buffered input and text, and the file of tables.
#![tactic(auto)]

pub mod files;
pub mod input;
mod reason;
pub mod text;
pub mod transfer;
