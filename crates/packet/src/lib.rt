// The packets of an interval: layout, writing, the table sum.
#![tactic(auto)]

pub mod applications;
pub mod envelope;
pub mod layout;
pub mod stamp;
pub mod table_sum;
pub mod write;
