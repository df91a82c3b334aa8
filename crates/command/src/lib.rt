// Command lines, what they ask for, and what a command makes of the settings.
#![tactic(auto)]

pub mod apply;
pub mod argument;
pub mod command;
pub mod keyword;
pub mod line;
pub mod ranges;
pub mod traits;
