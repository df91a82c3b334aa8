// What a rate, sample or beacon packet is stamped with.
ghost use Rattle.std.specs.Prelude.{◌≡◌};
ghost use Rattle.packet.specs.Packet.{stamp_of};

use crate::layout;

#[derive(Clone, Copy)]
pub struct Stamp {
    // The sequence count, of which the header has fourteen bits.
    pub sequence: u16,
    // In seconds.
    pub time: u32,
    pub frame: u16,
    // Byte 269: the mark of the codes' edition, and no `Mark`, since in a sample packet it is p.
    pub mark: u8,
    // Byte 270: zero.
    pub last: u8,
}

// The stamp of a packet of this frame and time.
pub fn stamp_of(frame: u16, time: u32, mark: u8) -> Stamp
    ensures { result ≡ stamp_of frame time mark }
{
    Stamp {
        sequence: frame % layout::SEQUENCE_COUNTS,
        time,
        frame,
        mark,
        last: 0,
    }
}
