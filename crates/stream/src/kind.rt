// The kinds of records.
ghost use Rattle.std.specs.Prelude.{◌≤◌, unwrap_or};
ghost use Rattle.stream.specs.Kind.{Decodes, kind_number};
ghost use Rattle.stream.specs.Record.{LongAs};

// What the programs read, each by the number of its kind byte. Minute knows the first four.
#[derive(Clone, Copy, PartialEq, Eq)]
pub enum Kind {
    Event = 1,
    Reading = 2,
    Line = 3,
    Close = 4,
    Package = 5,
    Packet = 6,
    Listing = 7,
    Gather = 8,
    Gathered = 9,
    ToSecond = 10,
    ToFirst = 11,
    State = 20,
    Show = 21,
    Slots = 22,
}

// The lengths of the bodies.
pub const EVENT_BYTES: usize = 7;

pub const READING_BYTES: usize = 16;

pub const CLOSE_BYTES: usize = 4;

impl Kind {
    // The length of its body, where that is the same in both programs.
    pub fn fixed_bytes(self) -> Option<usize>
        ensures { (unwrap_or result 0 ≤ 16) × LongAs (kind_number self) (unwrap_or result 0) }
    {
        match self {
            Kind::Event => Some(EVENT_BYTES),
            Kind::Reading => Some(READING_BYTES),
            Kind::Close => Some(CLOSE_BYTES),
            _ => None,
        }
    }
}

// No kind, or a body that is short or wrong.
#[derive(Clone, Copy, PartialEq, Eq)]
pub struct BadRecord;

impl TryFrom<u8> for Kind {
    type Error = BadRecord;

    ghost try_from_gives = { Decodes };

    fn try_from(byte: u8) -> Result<Kind, BadRecord> {
        match byte {
            1 => Ok(Kind::Event),
            2 => Ok(Kind::Reading),
            3 => Ok(Kind::Line),
            4 => Ok(Kind::Close),
            5 => Ok(Kind::Package),
            6 => Ok(Kind::Packet),
            7 => Ok(Kind::Listing),
            8 => Ok(Kind::Gather),
            9 => Ok(Kind::Gathered),
            10 => Ok(Kind::ToSecond),
            11 => Ok(Kind::ToFirst),
            20 => Ok(Kind::State),
            21 => Ok(Kind::Show),
            22 => Ok(Kind::Slots),
            _ => Err(BadRecord),
        }
    }
}

// The length of a body by the number of its kind, where that is the same in both programs; else 0.
#[tactic(auto, using(crate::proofs::KindLaws::no_kind))]
pub fn fixed_bytes_of(kind: u8) -> usize
    ensures { (result ≤ 16) × LongAs kind result }
{
    match Kind::try_from(kind) {
        Ok(kind) => kind.fixed_bytes().unwrap_or(0),
        Err(BadRecord) => 0,
    }
}
