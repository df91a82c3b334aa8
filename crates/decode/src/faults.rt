// The tests of a packet, and why one is refused.
ghost use Rattle.std.specs.Prelude.{◌≡◌, ◌+◌, ◌*◌, ◌≤◌, length, cond, true, Some, IfOk};
ghost use Rattle.causes.specs.Causes.{carried_out, call_number};
ghost use Rattle.wire.specs.Bytes.{at32};
ghost use Rattle.sample_record.specs.Record.{record_good};
ghost use Rattle.packet.specs.Layout.{packet_bytes, body_at, code_bytes, record_bytes};
ghost use Rattle.decode.specs.Read.{application_of, kind_of, fields_good, sum_good, codes_good, zeros_good, records_good};
ghost use Rattle.decode.specs.Read.{end_good, rate_good, sample_good, beacon_good, body_good, read_number};

use crate::fields::application;
use crate::kind::{Kind, kind_of};
use crate::limits::{LARGEST_LIMHI, LAST_MARK};
use boxes::{LAST_BOX, OUT_OF_BOUNDS_BOX};
use causes::{Cause, check};
use packet::applications::of_sample;
use packet::layout;
use packet::layout::{CODE_BYTES, PACKET_BYTES, RECORD_BYTES};
use rate_code::editions::Edition;
use wire::number::BigEndian;

// A record of box 6 whose last byte is read as the highest is at least this, and one of box 116 is below the next.
// `as`, since a constant's value calls no `u32::from`.
const LEAST_MIRRORED: u32 = 2 * (OUT_OF_BOUNDS_BOX as u32) * 16777216;

const MIRRORED_END: u32 = 2 * (LAST_BOX as u32 + 1) * 16777216;

// The header's fields, but for the application number, the sequence count and the time.
#[tactic(auto, unfolding(crate::specs::Read::fields_good))]
pub fn fields_good(packet: &[u8; PACKET_BYTES]) -> bool
    ensures { result ≡ fields_good packet.now }
{
    (u16::read(packet, layout::APPLICATION_AT) / layout::SECONDARY_FLAG == 1)
        & (u16::read(packet, layout::SEQUENCE_AT) / layout::SEQUENCE_COUNTS
            == layout::SEQUENCE_FLAGS)
        & (u16::read(packet, layout::LENGTH_AT) == layout::LENGTH_FIELD)
        & (packet[layout::ZERO_AT] == 0)
}

// The kind that the header names, if the header is that of one.
fn header_kind(packet: &[u8; PACKET_BYTES]) -> Option<Kind>
    ensures { result ≡ cond (fields_good packet.now) (kind_of (application_of packet.now)) None }
{
    if fields_good(packet) {
        kind_of(application(packet))
    } else {
        None
    }
}

// The last byte is the sum of those before it, of which it has the lowest eight bits.
#[tactic(auto, unfolding(crate::specs::Read::sum_good))]
pub fn sum_good(packet: &[u8; PACKET_BYTES]) -> bool
    ensures { result ≡ sum_good packet.now }
{
    let sum = wire::read::byte_sum(&packet[0..layout::SUM_AT]);
    packet[layout::SUM_AT] == (sum % 256) as u8
}

// Whether the first n codes are ones that counts have, in the edition of the packet's mark. This loop and the two below are no
// `all`: one that leaves early is not made of vectors.
fn codes_good(packet: &[u8; PACKET_BYTES], n: usize) -> bool
    requires { body_at + code_bytes * n ≤ packet_bytes }
    ensures { result ≡ codes_good n packet.now }
{
    let edition = Edition::from(packet[layout::MARK_AT]);
    let end = layout::BODY_AT + CODE_BYTES * n;
    let mut good = true;
    let (codes, _) = packet[layout::BODY_AT..end].as_chunks::<CODE_BYTES>();
    for code in codes {
        good = good & edition.valid(u16::from_be_bytes(*code));
    }
    good
}

// Whether the n bytes from `at` on are zero. A place and a length, and no slice: the definition goes by them, so a slice is no plainer.
pub fn zeros_good(packet: &[u8], at: usize, n: usize) -> bool
    requires { at + n ≤ length packet.now }
    ensures { result ≡ zeros_good at n packet.now }
{
    let mut good = true;
    for byte in &packet[at..at + n] {
        good = good & (*byte == 0);
    }
    good
}

// Whether the record is empty or of a box that samples have. Box and priority are its last byte: with that byte highest it is
// compared whole, without a shift.
fn record_fits(bytes: [u8; RECORD_BYTES]) -> bool
    ensures { result ≡ record_good (at32 bytes 0) }
{
    let x = u32::from_le_bytes(bytes);
    (x == 0) | ((LEAST_MIRRORED <= x) & (x < MIRRORED_END))
}

// Whether each of the first n records is empty or of a box that samples have.
fn records_good(packet: &[u8; PACKET_BYTES], n: usize) -> bool
    requires { body_at + record_bytes * n ≤ packet_bytes }
    ensures { result ≡ records_good n packet.now }
{
    let end = layout::BODY_AT + RECORD_BYTES * n;
    let (records, _) = packet[layout::BODY_AT..end].as_chunks::<RECORD_BYTES>();
    let mut good = true;
    for bytes in records {
        good = good & record_fits(*bytes);
    }
    good
}

// Whether the bytes behind the frame are the mark of an edition and a zero.
fn end_good(packet: &[u8; PACKET_BYTES]) -> bool
    ensures { result ≡ end_good packet.now }
{
    (packet[layout::MARK_AT] <= LAST_MARK) & (packet[layout::LAST_AT] == 0)
}

// The body of a rate packet: its codes, LIMHI, and what has no use.
#[tactic(auto, unfolding(crate::specs::Read::rate_good))]
fn rate_good(packet: &[u8; PACKET_BYTES]) -> bool
    ensures { result ≡ rate_good packet.now }
{
    codes_good(packet, layout::RATES)
        & (packet[layout::GAP_AT] == 0)
        & (packet[layout::FLAGS_AT] % settings::JUNK_FLAG == 0)
        & (u16::read(packet, layout::LIMHI_AT) <= LARGEST_LIMHI)
        & end_good(packet)
}

// The body of a sample packet: its p, its records, and what has no use.
#[tactic(auto, unfolding(crate::specs::Read::sample_good))]
fn sample_good(packet: &[u8; PACKET_BYTES]) -> bool
    ensures { result ≡ sample_good packet.now }
{
    (application(packet) == of_sample(packet[layout::MARK_AT]))
        & (packet[layout::LAST_AT] == 0)
        & records_good(packet, layout::RECORDS)
}

// The body of a beacon packet: its codes, and what has no use.
#[tactic(auto, unfolding(crate::specs::Read::beacon_good))]
fn beacon_good(packet: &[u8; PACKET_BYTES]) -> bool
    ensures { result ≡ beacon_good packet.now }
{
    codes_good(packet, layout::BEACON_RATES)
        & zeros_good(packet, layout::BEACON_END, layout::BEACON_UNUSED)
        & end_good(packet)
}

// The body of a packet of this kind: a match and no table of functions, since each kind has a test of its own.
#[tactic(auto, unfolding(crate::specs::Read::body_good))]
fn body_good(kind: Kind, packet: &[u8; PACKET_BYTES]) -> bool
    ensures { result ≡ body_good (Some kind) packet.now }
{
    match kind {
        Kind::Rate => rate_good(packet),
        Kind::Sample => sample_good(packet),
        Kind::Beacon => beacon_good(packet),
    }
}

// A packet without fault, and its kind.
#[derive(Clone, Copy)]
pub struct Accepted<'a> {
    pub packet: &'a [u8; PACKET_BYTES],
    pub kind: Kind,
    ghost taken: { read_number packet.now ≡ carried_out },
    ghost kind_is: { kind_of (application_of packet.now) ≡ Some kind },
    ghost body: { body_good (Some kind) packet.now ≡ true },
}

// Judges any bytes: a packet without fault, or why they are none. By `let else`, since `?` would hand on the library's error.
#[tactic(auto, unfolding(crate::specs::Read::header_good, crate::specs::Read::read_number))]
pub fn judge(packet: &[u8]) -> Result<Accepted<'_>, Cause>
    ensures number { call_number result ≡ read_number packet.now }
    ensures packet { IfOk result (λ a. a.packet.now ≡ packet.now) }
{
    let Ok(packet) = <&[u8; PACKET_BYTES]>::try_from(packet) else {
        return Err(Cause::NoHeader);
    };
    let kind = header_kind(packet).ok_or(Cause::NoHeader)?;
    check(sum_good(packet), Cause::PacketSum)?;
    check(body_good(kind, packet), Cause::BodyFault)?;
    Ok(Accepted { packet, kind })
}
