// Listing packets: tables and outputs one shorter and one longer than they must be, and empty ones, over a fresh
// state. Then calls that more than one cause refuses.
use crate::calls;
use crate::calls::{PACKET_BYTES, TABLE_BYTES, listing};
use causes::call_number;

pub fn lengths(rt: &HostRuntime) {
    let mut long = [0u8; TABLE_BYTES + 1];
    calls::lengths(rt, "listing-tables", &mut long, |tables: &mut [u8]| {
        listing(0, tables, &mut [0u8; PACKET_BYTES])
    });
    let mut long = [0u8; PACKET_BYTES + 1];
    calls::lengths(rt, "listing-out", &mut long, |out: &mut [u8]| {
        listing(0, &[0u8; TABLE_BYTES], out)
    });
}

// Into this output, of whose length `told` stands behind the names.
fn lowest_cases(rt: &HostRuntime, told: &str, out: &mut [u8]) {
    for i in [249, 250, 256, 65535] {
        let answer = listing(i, &[0u8; TABLE_BYTES], out);
        let _ = println!(rt; "listing-{i}{told} {}", call_number(&answer));
    }
}

// The lowest number that applies is given: 1 before any other.
pub fn lowest(rt: &HostRuntime) {
    lowest_cases(rt, "-out-271", &mut [0u8; 271]);
    lowest_cases(rt, "", &mut [0u8; PACKET_BYTES]);
}
