// Listing packets: the lookup tables brought back down, 84 words a packet.
#![tactic(auto)]

pub mod judge;
pub mod layout;
pub mod write;
