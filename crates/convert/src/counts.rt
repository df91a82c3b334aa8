// What became of the packets.
ghost use Rattle.std.specs.Prelude.{◌≡◌, eqb};
ghost use Rattle.causes.specs.Causes.{cause_number, call_number};
ghost use Rattle.convert.specs.Block.{none_counted, more, counted_by};

use causes::Cause;
use converter::Conversion;

#[derive(Clone, Copy, Default)]
pub struct Counts {
    pub converted: u64,
    // Taken by the reader, and not to be converted: sample packets, and those already in the edition wanted.
    pub passed: u64,
    // Refused, by 11, 12, 13 and 17: for the header, the sum, the body, or a rate without a code in the first edition.
    pub headers: u64,
    pub sums: u64,
    pub bodies: u64,
    pub codes: u64,
}

// Of no packet. A function beside the derived `default`: its clause is what a caller gets.
pub fn none() -> Counts
    ensures { result ≡ none_counted }
{
    Counts::default()
}

// One more where the test passes. No run reaches the largest number.
fn more(n: u64, passes: bool) -> u64
    ensures { result ≡ more n passes }
{
    n.saturating_add(u64::from(passes))
}

// Whether the call was refused for this cause.
fn refused_for(call: Result<(), Cause>, cause: Cause) -> bool
    ensures { result ≡ eqb (call_number call) (cause_number cause) }
{
    call == Err(cause)
}

// One packet more, by what the reader said of it and what its conversion did.
#[tactic(auto, unfolding(crate::specs::Block::counted_by))]
pub fn counted(counts: Counts, told: Conversion) -> Counts
    ensures { result ≡ counted_by counts (call_number told.read) (call_number told.conversion) }
{
    let Conversion { read, conversion } = told;
    let not_converted = refused_for(conversion, Cause::BodyFault);
    Counts {
        converted: more(counts.converted, conversion.is_ok()),
        passed: more(counts.passed, read.is_ok() & not_converted),
        headers: more(counts.headers, refused_for(read, Cause::NoHeader)),
        sums: more(counts.sums, refused_for(read, Cause::PacketSum)),
        bodies: more(counts.bodies, refused_for(read, Cause::BodyFault)),
        codes: more(counts.codes, refused_for(conversion, Cause::NoFirstCode)),
    }
}
