// Where each part of a listing packet stands, and which words it has.
ghost use Rattle.std.specs.Prelude.{◌≡◌, ◌+◌, ◌*◌, ◌≤◌, ◌<◌};
ghost use Rattle.listing_packet.specs.Listing.{listing_packets, piece_bytes, piece_size};

use packet::layout::BODY_AT;

pub const APPLICATION: u16 = 594;

// The table's packets, and the words and bytes of each but the last, which has fewer.
pub const PACKETS: usize = 250;

pub const PACKET_WORDS: usize = 84;

pub const PIECE_BYTES: usize = 3 * PACKET_WORDS;

// Behind the header three zeros, the frame, the first word's address, the words.
pub const UNUSED_BYTES: usize = 3;

pub const FRAME_AT: usize = BODY_AT + UNUSED_BYTES;

pub const ADDRESS_AT: usize = FRAME_AT + 2;

pub const WORDS_AT: usize = ADDRESS_AT + 3;

// How many bytes of the tables packet i has.
pub fn piece_size(i: usize) -> usize
    requires { i < listing_packets }
    ensures { (result ≡ piece_size i) × (result ≤ piece_bytes) }
{
    PIECE_BYTES.min(tables::TABLE_BYTES - PIECE_BYTES * i)
}
