// Why a call is refused: the causes of document 01, "Causes and their numbers", and the choice among those that apply.
#![tactic(auto)]

ghost use Rattle.std.specs.Prelude.{◌≡◌, ◌<◌, cond};
ghost use Rattle.causes.specs.Causes.{cause_number, call_number};

// The number of a call that is carried out.
const CARRIED_OUT: u8 = 0;

// Why a call is refused, by its number.
#[derive(Clone, Copy, PartialEq, Eq)]
pub enum Cause {
    // A lent buffer has another length, or the state is over a limit or holds a waiting command that no line could give.
    BufferOrState = 1,
    // An event's field is over its range.
    FieldRange = 2,
    // 1,000,000 events or 60 readings are taken.
    IntervalFull = 3,
    // A line is over 80 bytes or has another byte than it may.
    LineBytes = 4,
    // An unknown keyword, or a wrong argument.
    WrongLine = 5,
    // A load waits.
    LoadWaiting = 6,
    // There were 32 commands in this frame.
    CommandLimit = 7,
    // A package has no N, or an N below 2 or not matching its bytes.
    PackageForm = 8,
    // A package passes staging's end.
    PastStaging = 9,
    // A package's sum is wrong.
    PackageSum = 10,
    // A packet is not 272 bytes long, or has no header of ours.
    NoHeader = 11,
    // A packet's sum is wrong.
    PacketSum = 12,
    // A packet's body has a fault.
    BodyFault = 13,
    // A listing's i, or a listing packet's address, is none of the 250.
    NotListed = 14,
    // A byte below the reach was last written by a package with a wrong sum.
    BadStaged = 15,
    // A commit's sum is not that of the bytes below the reach.
    SumDiffers = 16,
    // A rate's least count is that of no code of the first edition.
    NoFirstCode = 17,
}

impl Cause {
    // The cause's number. A method and no `From`: its clause says too that none is 0, and `u8::from` would be no plainer.
    pub fn number(self) -> u8
        ensures { (result ≡ cause_number self) × (0 < result) }
    {
        self as u8
    }
}

// One test of a call: its cause where it fails.
pub fn check(passes: bool, cause: Cause) -> Result<(), Cause>
    ensures { result ≡ cond passes (Ok record {}) (Err cause) }
{
    if passes { Ok(()) } else { Err(cause) }
}

// The same in numbers: the test's cause where it fails, and otherwise what the tests behind it say.
pub fn unless(passes: bool, cause: u8, rest: u8) -> u8
    ensures { result ≡ cond passes rest cause }
{
    if passes { rest } else { cause }
}

// The number that a call is answered: 0 where it is carried out, and otherwise that of its cause.
pub fn call_number<T>(call: &Result<T, Cause>) -> u8
    ensures { result ≡ call_number call.now }
{
    match call {
        Ok(_) => CARRIED_OUT,
        Err(cause) => cause.number(),
    }
}
