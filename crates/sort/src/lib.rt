// One event: its fields, its two columns, its matrix cell, and what becomes of it by rules 1 to 5.
#![tactic(auto)]

pub mod columns;
pub mod event;
pub mod matrix;
pub mod ranged;
pub mod sorting;
pub mod words;
