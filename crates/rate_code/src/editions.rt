// Codes of either edition, and the marks of packets that have them.
ghost use Rattle.std.specs.Prelude.{◌≡◌, true, ◌<◌};
ghost use Rattle.rate_code.specs.Rate.{count_limit};
ghost use Rattle.rate_code.specs.Editions.{mark_number, mark_from, edition_of, code_of, least_of, valid_of, code_by, least_by, valid_by};

use crate::code::RateCode;
use crate::first::First;
use crate::second::Second;

// Byte 269 of a rate or beacon packet: of the first edition, of the second as written aboard, or converted to the second.
#[derive(Clone, Copy, PartialEq, Eq)]
pub enum Mark {
    First = 0,
    Second = 1,
    Converted = 2,
}

impl Mark {
    // The byte. A method and no `From`: `u8::from(mark)` would be no plainer.
    pub fn number(self) -> u8
        ensures { result ≡ mark_number self }
    {
        self as u8
    }
}

// It is no `TryFrom`: a packet's edition is asked before its mark is judged, and a byte above 2 stands for the second.
impl From<u8> for Mark {
    ghost from_gives = { λ byte mark. mark ≡ mark_from byte };

    fn from(byte: u8) -> Mark {
        match byte {
            0 => Mark::First,
            1 => Mark::Second,
            _ => Mark::Converted,
        }
    }
}

#[derive(Clone, Copy, PartialEq, Eq)]
pub enum Edition {
    First,
    Second,
}

// Any byte as a mark: every one but the first edition's stands for the second.
impl From<u8> for Edition {
    ghost from_gives = { λ mark edition. edition ≡ edition_of mark };

    fn from(mark: u8) -> Edition {
        match Mark::from(mark) {
            Mark::First => Edition::First,
            _ => Edition::Second,
        }
    }
}

// A match in each, and no `dyn`: the trait's functions take no value of the edition.
impl Edition {
    // The code of a count.
    pub fn encode(self, n: u32) -> u16
        requires { n < count_limit }
        ensures { result ≡ code_of self n }
    {
        match self {
            Edition::First => First::encode(n),
            Edition::Second => Second::encode(n),
        }
    }

    // Whether the code is one that a count can have.
    pub fn valid(self, c: u16) -> bool
        ensures { result ≡ valid_of self c }
    {
        match self {
            Edition::First => First::valid(c),
            Edition::Second => Second::valid(c),
        }
    }

    // The least count that has the code.
    pub fn least_count(self, c: u16) -> u32
        requires { valid_of self c ≡ true }
        ensures { result ≡ least_of self c }
    {
        match self {
            Edition::First => First::least_count(c),
            Edition::Second => Second::least_count(c),
        }
    }
}

// The code of a count, by the mark of its packet.
pub fn encode(mark: u8, n: u32) -> u16
    requires { n < count_limit }
    ensures { result ≡ code_by mark n }
{
    Edition::from(mark).encode(n)
}

// Whether the code is one that a count can have, by the mark of its packet.
pub fn valid(mark: u8, c: u16) -> bool
    ensures { result ≡ valid_by mark c }
{
    Edition::from(mark).valid(c)
}

// The least count that has the code, by the mark of its packet.
pub fn least_count(mark: u8, c: u16) -> u32
    requires { valid_by mark c ≡ true }
    ensures { result ≡ least_by mark c }
{
    Edition::from(mark).least_count(c)
}
