// The lookup tables: 20,995 words of 24 bits in a lent buffer, by their hexadecimal addresses.
#![tactic(auto)]

ghost use Rattle.std.specs.Prelude.{◌≡◌, ◌≤◌, ◌<◌};
ghost use Rattle.tables.specs.Tables.{first, end, word_at};

// The address of the first word and the one after the last.
pub const FIRST: usize = 0x7000;

pub const END: usize = 0xC203;

// The buffer's length: three bytes for each word.
pub const TABLE_BYTES: usize = 62985;

pub type Tables = [u8; TABLE_BYTES];

// The four tables, and the offsets behind them.
pub const HIGH_GAIN: usize = 0x7000;

pub const LOW_GAIN: usize = 0x7800;

pub const MATRIX: usize = 0x8000;

pub const TIME_OF_FLIGHT: usize = 0xC000;

pub const KHI: usize = 0xC200;

pub const KLO: usize = 0xC201;

pub const KTOF: usize = 0xC202;

// The matrix as a part of the buffer: from byte 12,288 to before byte 61,440.
pub const MATRIX_START: usize = 12288;

pub const MATRIX_END: usize = 61440;

// The word at an address.
pub fn word(tables: &Tables, address: usize) -> u32
    requires first_le_address { (first ≤ address) × (address < end) }
    ensures { (result ≡ word_at tables.now address) × (result < 16777216) }
{
    wire::read::u24_at(tables, 3 * (address - FIRST))
}
