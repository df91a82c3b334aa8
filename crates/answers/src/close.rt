// The answer to a close, printed.
use crate::calls::{print_bytes, print_number};
use buffered::text::{Numbers, Text};
use causes::Cause;
use counts::Counts;
use output::Summary;
use packet::layout::PACKET_BYTES;

// A line for the boxes and one for the beacons.
fn print_counts(text: &mut Text, counts: Counts) {
    writeln!(text, "boxes{}", Numbers(&counts.boxes));
    writeln!(text, "beacons{}", Numbers(&counts.beacons));
}

pub(crate) fn print_out(text: &mut Text, packet: &[u8]) {
    print_bytes(text, "out", packet);
}

// Frame, taken, filled, eligible, replaced and dropped behind the number; then the counts and the packets.
fn print_ended(text: &mut Text, frame: u16, ended: Summary, packets: &[u8]) {
    let Summary {
        taken,
        counts,
        filled,
        eligible,
        replaced,
        dropped,
    } = ended;
    writeln!(
        text,
        "close 0 {frame} {taken} {filled} {eligible} {replaced} {dropped}"
    );
    print_counts(text, counts);
    for packet in packets.chunks_exact(PACKET_BYTES) {
        print_out(text, packet);
    }
}

// Nothing behind the number of a refused close.
pub fn print_close(text: &mut Text, frame: u16, answer: Result<Summary, Cause>, packets: &[u8]) {
    match answer {
        Ok(ended) => print_ended(text, frame, ended, packets),
        Err(_) => print_number(text, "close", &answer),
    }
}
