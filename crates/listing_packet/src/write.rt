// A listing packet, written into a lent part of 272 bytes of which nothing old remains.
ghost use Rattle.std.specs.Prelude.{◌≡◌, ◌≤◌, ◌<◌, length};
ghost use Rattle.wire.specs.Bytes.{put};
ghost use Rattle.packet.specs.Layout.{packet_bytes, body_at, sum_at};
ghost use Rattle.listing_packet.specs.Listing.{listing_packets, place_bytes, words_at, piece_of, listing_packet};

use crate::layout;
use crate::layout::piece_size;
use packet::envelope::{write_header, write_sum};
use packet::layout::{BODY_AT, SEQUENCE_COUNTS, SUM_AT};
use tables::Tables;
use wire::number::BigEndian;
use wire::write::{put_bytes, put_u24, put_zeros};

// Three zeros, the frame and the address of the packet's first word.
fn write_place(part: &mut [u8], frame: u16, i: usize)
    requires { (sum_at ≤ length part.old) × (i < listing_packets) }
    ensures { part.new ≡ put part.old body_at (place_bytes frame i) }
{
    put_zeros(part, BODY_AT, layout::FRAME_AT);
    frame.put(part, layout::FRAME_AT);
    let address = tables::FIRST + layout::PACKET_WORDS * i;
    put_u24(part, layout::ADDRESS_AT, address as u32);
}

// The packet's words, straight from the tables to their place, and zeros behind the last ones.
fn write_words(part: &mut [u8], i: usize, tables: &Tables)
    requires { (sum_at ≤ length part.old) × (i < listing_packets) }
    ensures { part.new ≡ put part.old words_at (piece_of i tables.now) }
{
    let from = layout::PIECE_BYTES * i;
    let n = piece_size(i);
    let to = from + n;
    put_bytes(part, layout::WORDS_AT, &tables[from..to]);
    put_zeros(part, layout::WORDS_AT + n, SUM_AT);
}

// Packet i of the tables. The bound of i stays a clause: who calls has judged the number, and a type would only judge it again.
pub fn write_listing(part: &mut [u8], frame: u16, time: u32, i: usize, tables: &Tables)
    requires { (length part.old ≡ packet_bytes) × (i < listing_packets) }
    ensures { part.new ≡ listing_packet frame time i tables.now }
{
    write_header(part, layout::APPLICATION, frame % SEQUENCE_COUNTS, time);
    write_place(part, frame, i);
    write_words(part, i, tables);
    write_sum(part);
}
