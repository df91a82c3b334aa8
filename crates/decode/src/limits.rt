// The largest values that the reader takes: p of a sample packet, LIMHI, and the mark of a rate or beacon packet. `as`, since a
// constant's value calls no function.
use rate_code::editions::Mark;

pub const LAST_SAMPLE: u8 = 10;

pub const LARGEST_LIMHI: u16 = 704;

pub const LAST_MARK: u8 = Mark::Converted as u8;
