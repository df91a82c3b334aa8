// Converting a rate or beacon packet from one edition of the rate code to the other: calls that take any bytes.
#![tactic(auto)]

ghost use Rattle.std.specs.Prelude.{◌≡◌, Some};
ghost use Rattle.causes.specs.Causes.{call_number};
ghost use Rattle.rate_code.specs.Editions.{mark_in};
ghost use Rattle.decode.specs.Read.{read_number};
ghost use Rattle.converter.specs.Convert.{rates_in, rate_count_of, convertible, convert_done, to_second, to_first};

mod rates;

use causes::{Cause, check};
use decode::faults::{Accepted, judge};
use decode::kind::Kind;
use packet::layout;
use packet::layout::PACKET_BYTES;
use rate_code::editions::{Edition, Mark};
use rates::Rates;

// What is said of any bytes: whether the reader takes them, and whether they are converted.
#[derive(Clone, Copy)]
pub struct Conversion {
    pub read: Result<(), Cause>,
    pub conversion: Result<(), Cause>,
}

// How many rates a packet of the kind has. A match, since a `Kind` is of `decode`, where no number of rates is asked for.
fn rates_in(kind: Kind) -> usize
    ensures { result ≡ rates_in (Some kind) }
{
    match kind {
        Kind::Rate => layout::RATES,
        Kind::Sample => 0,
        Kind::Beacon => layout::BEACON_RATES,
    }
}

// Whether a packet of n rates has some and is in the other edition.
#[tactic(auto, unfolding(crate::specs::Convert::convertible))]
fn is_convertible(wanted: Edition, packet: &[u8; PACKET_BYTES], n: usize) -> bool
    requires { n ≡ rate_count_of packet.now }
    ensures { result ≡ convertible (mark_in wanted) packet.now }
{
    (n != 0) & (Edition::from(packet[layout::MARK_AT]) != wanted)
}

// Converts a packet that the reader takes. The mark wanted may be any byte, as below.
#[tactic(auto, using(crate::proofs::Converts::number_taken, crate::proofs::Converts::same_convertible, crate::proofs::Converts::same_exact), unfolding(crate::specs::Convert::convert_done))]
fn convert_accepted(wanted: u8, accepted: Accepted, out: &mut [u8]) -> Result<(), Cause>
    ensures number { call_number result ≡ (convert_done wanted accepted.entry.packet.now out.old).number }
    ensures out { out.new ≡ (convert_done wanted accepted.entry.packet.now out.old).out }
{
    check(out.len() == PACKET_BYTES, Cause::BufferOrState)?;
    let Accepted { packet, kind } = accepted;
    let edition = Edition::from(wanted);
    let n = rates_in(kind);
    check(is_convertible(edition, packet, n), Cause::BodyFault)?;
    let rates = Rates { packet, n };
    check(rates.keeps(edition), Cause::NoFirstCode)?;
    rates.recode(wanted, out);
    Ok(())
}

// Converts any bytes to the edition of the mark wanted. That may be any byte, as `Mark` may not.
#[tactic(auto, using(crate::proofs::Converts::number_untaken, crate::proofs::Converts::kept_unread), unfolding(crate::specs::Convert::convert_done))]
pub fn convert(wanted: u8, packet: &[u8], out: &mut [u8]) -> Conversion
    ensures read { call_number result.read ≡ read_number packet.now }
    ensures number { call_number result.conversion ≡ (convert_done wanted packet.now out.old).number }
    ensures out { out.new ≡ (convert_done wanted packet.now out.old).out }
{
    match judge(packet) {
        Ok(accepted) => Conversion {
            read: Ok(()),
            conversion: convert_accepted(wanted, accepted, out),
        },
        Err(cause) => Conversion {
            read: Err(cause),
            conversion: check(out.len() == PACKET_BYTES, Cause::BufferOrState).and(Err(cause)),
        },
    }
}

// Any bytes: a rate or beacon packet of the first edition is written in the second. Named, as the other below, since callers know
// the edition and no mark.
pub fn to_second(packet: &[u8], out: &mut [u8]) -> Result<(), Cause>
    ensures number { call_number result ≡ (to_second packet.now out.old).number }
    ensures out { out.new ≡ (to_second packet.now out.old).out }
{
    convert(Mark::Converted.number(), packet, out).conversion
}

// Any bytes: a rate or beacon packet of the second edition is written in the first, where that has all its rates.
pub fn to_first(packet: &[u8], out: &mut [u8]) -> Result<(), Cause>
    ensures number { call_number result ≡ (to_first packet.now out.old).number }
    ensures out { out.new ≡ (to_first packet.now out.old).out }
{
    convert(Mark::First.number(), packet, out).conversion
}
