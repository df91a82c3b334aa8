// A block of the input: packets one after the other, and at the end of the input perhaps a part of one.
ghost use Rattle.std.specs.Prelude.{◌≡◌, ◌/◌, ◌*◌, ◌≤◌, length};
ghost use Rattle.rate_code.specs.Editions.{mark_number};
ghost use Rattle.packet.specs.Layout.{packet_bytes};
ghost use Rattle.convert.specs.Block.{written, counted, written_all, counted_all};

use crate::counts::{Counts, counted};
use converter::convert;
use packet::layout::PACKET_BYTES;
use rate_code::editions::Mark;

// Converts the packet, which stands in `out` already, or leaves it there as it is; and counts it.
fn write_packet(wanted: Mark, packet: &[u8], out: &mut [u8], counts: Counts) -> Counts
    requires { (length packet.now ≡ packet_bytes) × (out.old ≡ packet.now) }
    ensures out { out.new ≡ written (mark_number wanted) packet.now }
    ensures counts { result ≡ counted (mark_number wanted) counts packet.now }
{
    counted(counts, convert(wanted.number(), packet, out))
}

// Writes n packets, and counts them. The loop goes by the place that a packet has in both: by chunks of both its proof would need
// the bytes of all chunks joined again.
fn write_packets(wanted: Mark, block: &[u8], n: usize, out: &mut [u8], counts: Counts) -> Counts
    requires { (length block.now ≡ length out.old) × (packet_bytes * n ≤ length block.now) }
    ensures out { out.new ≡ written_all (mark_number wanted) n block.now }
    ensures counts { result ≡ counted_all (mark_number wanted) n counts block.now }
{
    out.copy_from_slice(block);
    let mut after = counts;
    for i in 0..n {
        let from = PACKET_BYTES * i;
        let to = from + PACKET_BYTES;
        after = write_packet(wanted, &block[from..to], &mut out[from..to], after);
    }
    after
}

// Writes every packet of the block, and what stands behind the last as it is. Of the same length as the block and no arrays: the
// input's last block may have any.
pub fn write_block(wanted: Mark, block: &[u8], out: &mut [u8], counts: Counts) -> Counts
    requires { length block.now ≡ length out.old }
    ensures out { out.new ≡ written_all (mark_number wanted) (length block.now / packet_bytes) block.now }
    ensures counts { result ≡ counted_all (mark_number wanted) (length block.now / packet_bytes) counts block.now }
{
    let n = block.len() / PACKET_BYTES;
    write_packets(wanted, block, n, out, counts)
}
