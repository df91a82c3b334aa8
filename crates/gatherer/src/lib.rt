// The gatherer: listing packets, in any order and with repeats, put together to a table.
#![tactic(auto)]

ghost use Rattle.std.specs.Prelude.{◌≡◌, ◌≤◌};
ghost use Rattle.causes.specs.Causes.{call_number};
ghost use Rattle.listing_packet.specs.Listing.{listing_packets};
ghost use Rattle.gatherer.specs.Gather.{none_gathered, missing_of, gather_done};

use causes::Cause;
use listing_packet::judge::{Listed, judge};
use listing_packet::layout;
use listing_packet::layout::PACKETS;
use wire::write::put_bytes;

// Which of the 250 packets have come.
#[derive(Clone, Copy)]
pub struct Gathered {
    pub came: [bool; PACKETS],
}

impl Gathered {
    // A fresh gatherer. No derived `Default`: its clause is what a caller gets.
    pub fn none() -> Self
        ensures { result ≡ none_gathered }
    {
        Gathered {
            came: [false; PACKETS],
        }
    }

    // How many of the 250 addresses are missing. A loop: by a chain the proof did not close.
    pub fn missing(&self) -> usize
        ensures { (result ≡ missing_of self.now) × (result ≤ listing_packets) }
    {
        let mut n: usize = 0;
        for came in &self.came {
            n += usize::from(!*came);
        }
        n
    }
}

// Takes any bytes: a listing packet's words go to their place in the tables, and what is refused changes nothing.
#[tactic(auto, unfolding(crate::specs::Gather::gather_done))]
pub fn gather(gathered: &mut Gathered, packet: &[u8], tables: &mut [u8]) -> Result<(), Cause>
    ensures number { call_number result ≡ (gather_done gathered.old packet.now tables.old).answer.number }
    ensures gathered { gathered.new ≡ (gather_done gathered.old packet.now tables.old).answer.gathered }
    ensures tables { tables.new ≡ (gather_done gathered.old packet.now tables.old).tables }
{
    let Listed { packet, place } = judge(packet, tables.len())?;
    let end = layout::WORDS_AT + layout::piece_size(place);
    put_bytes(
        tables,
        layout::PIECE_BYTES * place,
        &packet[layout::WORDS_AT..end],
    );
    gathered.came[place] = true;
    Ok(())
}
