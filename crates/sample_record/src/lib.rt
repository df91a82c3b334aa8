// The 32-bit sample record, packed and unpacked by shifts and masks.
#![tactic(auto)]

ghost use Rattle.std.specs.Prelude.{◌≡◌, ◌+◌, ◌*◌, ◌/◌, ◌%◌, ◌^◌, ◌<◌};
ghost use Rattle.sample_record.specs.Record.{SampleFits, record_of, sample_of, record_box, record_good};

use boxes::{LAST_BOX, OUT_OF_BOUNDS_BOX};

// A record's fields, from bit 31 down.
#[derive(Clone, Copy)]
pub struct Sample {
    pub t: u16,
    pub channel: u16,
    pub flg0: bool,
    pub flg1: bool,
    pub gain: bool,
    pub error: bool,
    pub ratebox: u8,
    pub priority: bool,
}

// How many bits a field has.
pub const CHANNEL_BITS: u32 = 11;

pub const BOX_BITS: u32 = 7;

// A field of so many bits behind the others.
fn append(x: u32, bits: u32, field: u32) -> u32
    requires { (bits < 32) × (x * 2 ^ bits < 4294967296) × (field < 2 ^ bits) }
    ensures { result ≡ x * 2 ^ bits + field }
{
    (x << bits) | field
}

// The field of so many bits above the lowest `shift`.
fn field(x: u32, shift: u32, bits: u32) -> u32
    requires { (shift < 32) × (bits < 32) }
    ensures { result ≡ x / 2 ^ shift % 2 ^ bits }
{
    (x >> shift) & ((1 << bits) - 1)
}

// The record of a sample. `From` has no clause to ask that the fields fit their bits.
pub fn pack(s: Sample) -> u32
    requires { SampleFits s }
    ensures { result ≡ record_of s }
{
    let x = append(u32::from(s.t), CHANNEL_BITS, u32::from(s.channel));
    let x = append(x, 1, u32::from(s.flg0));
    let x = append(x, 1, u32::from(s.flg1));
    let x = append(x, 1, u32::from(s.gain));
    let x = append(x, 1, u32::from(s.error));
    let x = append(x, BOX_BITS, u32::from(s.ratebox));
    append(x, 1, u32::from(s.priority))
}

impl From<u32> for Sample {
    ghost from_gives = { λ x s. s ≡ sample_of x };

    #[tactic(auto, unfolding(crate::specs::Record::sample_of))]
    fn from(x: u32) -> Sample {
        Sample {
            t: field(x, 23, 9) as u16,
            channel: field(x, 12, CHANNEL_BITS) as u16,
            flg0: field(x, 11, 1) == 1,
            flg1: field(x, 10, 1) == 1,
            gain: field(x, 9, 1) == 1,
            error: field(x, 8, 1) == 1,
            ratebox: field(x, 1, BOX_BITS) as u8,
            priority: field(x, 0, 1) == 1,
        }
    }
}

// The box bits of a record.
pub fn record_box(x: u32) -> u32
    ensures { result ≡ record_box x }
{
    field(x, 1, BOX_BITS)
}

// Whether the record is empty or of a box that samples have.
pub fn record_good(x: u32) -> bool
    ensures { result ≡ record_good x }
{
    let b = record_box(x);
    (x == 0) | ((u32::from(OUT_OF_BOUNDS_BOX) <= b) & (b <= u32::from(LAST_BOX)))
}
