// What stands around the 260 bytes of every packet: the header before them, the sum behind.
ghost use Rattle.std.specs.Prelude.{◌≡◌, ◌≤◌, ◌<◌, length, take};
ghost use Rattle.wire.specs.Bytes.{put};
ghost use Rattle.packet.specs.Layout.{application_at, body_at, sum_at, packet_bytes, secondary_flag};
ghost use Rattle.packet.specs.Packet.{header, summed};

use crate::layout;
use wire::number::BigEndian;

// A packet's first eleven bytes. The part is one of an output of several packets: as an array each caller would need a case for a
// part of another length, and `as_chunks_mut` says nothing of what the output ends as.
#[tactic(auto, using(wire::proofs::Bytes::put_put), unfolding(crate::specs::Packet::header))]
pub fn write_header(part: &mut [u8], application: u16, sequence: u16, time: u32)
    requires body_at_in_bounds { body_at ≤ length part.old }
    requires application_lt_secondary_flag { application < secondary_flag }
    ensures { part.new ≡ put part.old application_at (header application sequence time) }
{
    let first = layout::SECONDARY_FLAG + application;
    first.put(part, layout::APPLICATION_AT);
    let second = layout::SEQUENCE_WORD + sequence % layout::SEQUENCE_COUNTS;
    second.put(part, layout::SEQUENCE_AT);
    layout::LENGTH_FIELD.put(part, layout::LENGTH_AT);
    time.put(part, layout::TIME_AT);
    0u8.put(part, layout::ZERO_AT);
}

// The sum of all bytes before it, of which the byte takes the lowest eight bits: no conversion cuts a number off.
pub fn write_sum(part: &mut [u8])
    requires { length part.old ≡ packet_bytes }
    ensures { part.new ≡ summed (take sum_at part.old) }
{
    let sum = wire::read::byte_sum(&part[0..layout::SUM_AT]);
    let low = (sum % 256) as u8;
    low.put(part, layout::SUM_AT);
}
