// The gatherer with table buffers one shorter and one longer than they must be, and an empty one; then packets that more
// than one cause refuses.
use causes::{Cause, call_number};
use gatherer::{Gathered, gather};
use packet::layout::PACKET_BYTES;

// As document 01 gives it: no test takes it from the code that it tests.
const TABLE_BYTES: usize = 62985;

fn gather_with(packet: &[u8], tables: &mut [u8]) -> Result<(), Cause> {
    gather(&mut Gathered::none(), packet, tables)
}

// Packet 0 of tables of zeros.
fn packet_0() -> [u8; PACKET_BYTES] {
    let tables = [0u8; TABLE_BYTES];
    let mut out = [0u8; PACKET_BYTES];
    listing_packet::write::write_listing(&mut out, 0, 60, 0, &tables);
    out
}

fn lengths(rt: &HostRuntime, packet: &[u8]) {
    let mut long = [0u8; TABLE_BYTES + 1];
    for n in [0, TABLE_BYTES - 1, TABLE_BYTES + 1] {
        let answer = gather_with(packet, &mut long[..n]);
        let _ = println!(rt; "gather-tables-{n} {}", call_number(&answer));
    }
}

// With this table buffer, of whose length `told` stands behind the names.
fn lowest(rt: &HostRuntime, packet: &[u8], told: &str, tables: &mut [u8]) {
    let answer = gather_with(b"", tables);
    let _ = println!(rt; "gather-of-no-byte{told} {}", call_number(&answer));
    let answer = gather_with(packet, tables);
    let _ = println!(rt; "gather-packet-0{told} {}", call_number(&answer));
}

pub fn run(rt: &HostRuntime) {
    let packet = packet_0();
    lengths(rt, &packet);
    // The lowest number that applies is given: 1 before any other.
    lowest(rt, &packet, "-tables-62984", &mut [0u8; 62984]);
    lowest(rt, &packet, "", &mut [0u8; TABLE_BYTES]);
}
