// What a gatherer finds in a packet, or why it refuses one.
ghost use Rattle.std.specs.Prelude.{◌≡◌, ◌<◌, cond, length, IfOk, IfSome};
ghost use Rattle.causes.specs.Causes.{call_number};
ghost use Rattle.packet.specs.Layout.{packet_bytes};
ghost use Rattle.listing_packet.specs.Listing.{listing_packets, place_in, address_listed, rest_zero, gather_number};

use crate::layout;
use crate::layout::piece_size;
use causes::{Cause, check};
use decode::faults::{fields_good, sum_good, zeros_good};
use decode::fields::application;
use packet::layout::{BODY_AT, PACKET_BYTES};
use wire::read::u24_at;

// A listing packet without fault, and which of the 250 it is.
#[derive(Clone, Copy)]
pub struct Listed<'a> {
    pub packet: &'a [u8; PACKET_BYTES],
    pub place: usize,
    ghost place_is: { place ≡ place_in packet.now },
    ghost place_fits: { place < listing_packets },
}

// Which of the 250 has the packet's address, if it is one of theirs.
pub fn place_in(packet: &[u8]) -> usize
    requires { length packet.now ≡ packet_bytes }
    ensures { result ≡ place_in packet.now }
{
    // `as`: Rust has no `usize::from` of a u32.
    let address = u24_at(packet, layout::ADDRESS_AT) as usize;
    address.saturating_sub(tables::FIRST) / layout::PACKET_WORDS
}

// Which of the 250 has the packet's address, if one of them has.
#[tactic(auto, unfolding(crate::specs::Listing::address_listed))]
fn place_of(packet: &[u8; PACKET_BYTES]) -> Option<usize>
    ensures place { result ≡ cond (address_listed packet.now) (Some (place_in packet.now)) None }
    ensures listed { IfSome result (λ i. (i ≡ place_in packet.now) × (i < listing_packets)) }
{
    let address = u24_at(packet, layout::ADDRESS_AT) as usize;
    let i = place_in(packet);
    let listed = i < layout::PACKETS;
    if listed & (address == tables::FIRST + layout::PACKET_WORDS * i) {
        Some(i)
    } else {
        None
    }
}

// Whether what has no use in a packet of this place is zero: three bytes behind the header, and all behind the last words.
#[tactic(auto, unfolding(crate::specs::Listing::rest_zero))]
fn rest_zero(packet: &[u8; PACKET_BYTES], place: usize) -> bool
    requires { (place ≡ place_in packet.now) × (place < listing_packets) }
    ensures { result ≡ rest_zero packet.now }
{
    let n = piece_size(place);
    zeros_good(packet, BODY_AT, layout::UNUSED_BYTES)
        & zeros_good(packet, layout::WORDS_AT + n, layout::PIECE_BYTES - n)
}

// Judges any bytes, given to a gatherer whose table buffer has this length.
#[tactic(auto, unfolding(crate::specs::Listing::gather_number, crate::specs::Listing::listing_header))]
pub fn judge(packet: &[u8], tables: usize) -> Result<Listed<'_>, Cause>
    ensures number { call_number result ≡ gather_number tables packet.now }
    ensures packet { IfOk result (λ l. l.packet.now ≡ packet.now) }
{
    check(tables == tables::TABLE_BYTES, Cause::BufferOrState)?;
    let Ok(packet) = <&[u8; PACKET_BYTES]>::try_from(packet) else {
        return Err(Cause::NoHeader);
    };
    let ours = application(packet) == layout::APPLICATION;
    check(fields_good(packet) & ours, Cause::NoHeader)?;
    check(sum_good(packet), Cause::PacketSum)?;
    let place = place_of(packet).ok_or(Cause::NotListed)?;
    check(rest_zero(packet, place), Cause::BodyFault)?;
    Ok(Listed { packet, place })
}
