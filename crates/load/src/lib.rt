// Loads: packages that bring bytes to staging, and packing staged bytes into the lookup tables.
#![tactic(auto)]

pub mod bitmap;
pub mod package;
pub mod run;
pub mod staging;
pub mod words;
