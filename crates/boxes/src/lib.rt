// How many boxes, beacons and totals there are, and the boxes that the rules name by number.
#![tactic(auto)]

pub const BOXES: usize = 116;

pub const BEACONS: usize = 12;

pub const TOTALS: usize = 8;

// Boxes and beacons are numbered from 1.
pub const LAST_BOX: u8 = BOXES as u8;

pub const LAST_BEACON: u8 = BEACONS as u8;

// Rule 1: an event that is not sorted.
pub const DISCARDED_BOX: u8 = 5;

// Rule 4: a column outside the matrix. With junk on, the first box whose events are eligible as samples.
pub const OUT_OF_BOUNDS_BOX: u8 = 6;

// Rule 5: a cell that names no box from 7 on.
pub const JUNK_BOX: u8 = 7;
