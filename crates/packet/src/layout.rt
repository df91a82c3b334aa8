// Where each part of a packet stands, for writing and reading alike.
use boxes::{BEACONS, BOXES, TOTALS};

// The header: the words with the application number and the sequence count, the length field, the time, a zero.
pub const APPLICATION_AT: usize = 0;

pub const SEQUENCE_AT: usize = APPLICATION_AT + 2;

pub const LENGTH_AT: usize = SEQUENCE_AT + 2;

pub const TIME_AT: usize = LENGTH_AT + 2;

pub const ZERO_AT: usize = TIME_AT + 4;

// Behind it 260 bytes of the packet's kind, and the sum.
pub const BODY_AT: usize = ZERO_AT + 1;

pub const INNER_BYTES: usize = 260;

pub const SUM_AT: usize = BODY_AT + INNER_BYTES;

pub const PACKET_BYTES: usize = SUM_AT + 1;

// The secondary header flag in the first word, above the application number.
pub const SECONDARY_FLAG: u16 = 2048;

// The sequence flags in the second word, above the count, which goes to before this.
pub const SEQUENCE_FLAGS: u16 = 3;

pub const SEQUENCE_COUNTS: u16 = 16384;

pub const SEQUENCE_WORD: u16 = SEQUENCE_FLAGS * SEQUENCE_COUNTS;

pub const LENGTH_FIELD: u16 = 265;

// Rate, sample and beacon packets: 256 bytes of their own, the frame, a mark (p in a sample packet), a last byte.
pub const BODY_BYTES: usize = 256;

pub const FRAME_AT: usize = BODY_AT + BODY_BYTES;

pub const MARK_AT: usize = FRAME_AT + 2;

pub const LAST_AT: usize = MARK_AT + 1;

// A code and a record in bytes.
pub const CODE_BYTES: usize = 2;

pub const RECORD_BYTES: usize = 4;

// A rate packet: the codes of totals and boxes, then a zero, hvstep, the flags, LIMHI, the table sum.
pub const RATES: usize = TOTALS + BOXES;

pub const BOXES_AT: usize = BODY_AT + CODE_BYTES * TOTALS;

pub const GAP_AT: usize = BODY_AT + CODE_BYTES * RATES;

pub const HVSTEP_AT: usize = GAP_AT + 1;

pub const FLAGS_AT: usize = HVSTEP_AT + 1;

pub const LIMHI_AT: usize = FLAGS_AT + 1;

pub const TABLE_SUM_AT: usize = LIMHI_AT + 2;

// A sample packet's records.
pub const RECORDS: usize = 64;

// A beacon packet: the codes of the beacons and those of eligible, replaced and dropped events, and bytes without use.
pub const BEACON_RATES: usize = BEACONS + 3;

pub const SAMPLE_COUNTS_AT: usize = BODY_AT + CODE_BYTES * BEACONS;

pub const BEACON_END: usize = BODY_AT + CODE_BYTES * BEACON_RATES;

pub const BEACON_UNUSED: usize = FRAME_AT - BEACON_END;
