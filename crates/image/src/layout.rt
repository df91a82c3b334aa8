// Where each part of a state's image stands, as specs/Layout.antt says.
pub const FRAME_AT: usize = 0;

pub const TAKEN_AT: usize = FRAME_AT + 2;

pub const BOXES_AT: usize = TAKEN_AT + 4;

pub const BEACONS_AT: usize = BOXES_AT + 4 * 116;

pub const USED_AT: usize = BEACONS_AT + 4 * 12;

pub const REPLACED_AT: usize = USED_AT + 4;

pub const READINGS_AT: usize = REPLACED_AT + 4;

pub const TOTALS_AT: usize = READINGS_AT + 4;

pub const LIMHI_AT: usize = TOTALS_AT + 4 * 8;

pub const FLAGS_AT: usize = LIMHI_AT + 2;

pub const HVSTEP_AT: usize = FLAGS_AT + 1;

pub const ACCEPTED_AT: usize = HVSTEP_AT + 1;

pub const WAITERS_AT: usize = ACCEPTED_AT + 4;

pub const ENTRIES_AT: usize = WAITERS_AT + 4;

pub const ENTRY_BYTES: usize = 6;

pub const NEXT_AT: usize = ENTRIES_AT + ENTRY_BYTES * 32;

pub const REACH_AT: usize = NEXT_AT + 4;

pub const ELIGIBLE_AT: usize = REACH_AT + 4;

pub const IMAGE_BYTES: usize = ELIGIBLE_AT + 4;

pub type Image = [u8; IMAGE_BYTES];

// The kinds of settings are below this one. They stay bytes: an entry may have any byte as its kind, and `judge` tells them apart.
pub const SETTING_KINDS: u8 = 6;

pub const LOAD_KIND: u8 = 255;
