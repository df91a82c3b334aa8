// What the ground reader makes of a packet, printed.
use crate::calls::{print_bytes, print_number};
use buffered::text::{Numbers, Text};
use ground::{Contents, Packet};
use settings::Settings;

// The kind, the header's numbers and the frame, and the mark or p.
fn print_header(text: &mut Text, kind: &str, packet: Packet, last: u8) {
    let Packet {
        sequence,
        time,
        frame,
        ..
    } = packet;
    writeln!(text, "{kind} {sequence} {time} {frame} {last}");
}

fn print_settings(text: &mut Text, s: Settings, sum: u32) {
    let numbers = [
        u32::from(s.hvstep),
        u32::from(s.hv),
        u32::from(s.eonly),
        u32::from(s.toferror),
        u32::from(s.junk),
        u32::from(s.limhi),
        sum,
    ];
    writeln!(text, "settings{}", Numbers(&numbers));
}

fn print_rates(text: &mut Text, rates: &[u32]) {
    writeln!(text, "rates{}", Numbers(rates));
}

// A `match`, since each kind has fields of its own.
fn print_contents(text: &mut Text, packet: Packet, bytes: &[u8]) {
    match packet.contents {
        Contents::Rate {
            mark,
            rates,
            settings,
            sum,
        } => {
            print_header(text, "rate", packet, mark.number());
            print_rates(text, &rates);
            print_settings(text, settings, sum);
        }
        Contents::Sample { p } => {
            print_header(text, "sample", packet, p);
            print_bytes(text, "records", ground::records(bytes));
        }
        Contents::Beacon { mark, rates } => {
            print_header(text, "beacon", packet, mark.number());
            print_rates(text, &rates);
        }
    }
}

pub fn print_packet(text: &mut Text, bytes: &[u8]) {
    let read = ground::read(bytes);
    print_number(text, "packet", &read);
    if let Ok(packet) = read {
        print_contents(text, packet, bytes);
    }
}
