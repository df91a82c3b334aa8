// Lines of output.
use causes::call_number;
use ground::{Contents, Packet};
use packet::layout::{BEACON_RATES, RATES};
use settings::Settings;
use std::fmt;
use std::fmt::{Display, Formatter};

// A packet's header and frame.
#[derive(Clone, Copy)]
struct Header(Packet);

impl Display for Header {
    fn fmt<W: fmt::Write>(&self, f: &mut Formatter<W>) -> fmt::Result {
        let Packet {
            application,
            sequence,
            time,
            frame,
            ..
        } = self.0;
        write!(f, "{application} {sequence} {time} {frame}")
    }
}

// All items, each shown in turn, are a line.
fn line<T, F: Fn(&T)>(rt: &HostRuntime, items: &[T], show: &F)
    requires { F.IsAlwaysCallable show.now }
{
    for item in items {
        show(item);
    }
    let _ = println!(rt; "");
}

fn settings_line(rt: &HostRuntime, s: Settings) {
    let _ = print!(rt; "{} {} ", s.limhi, u8::from(s.eonly));
    let _ = print!(rt; "{} {} ", u8::from(s.toferror), u8::from(s.junk));
    let _ = println!(rt; "{} {} ", u8::from(s.hv), s.hvstep);
}

// What a kind has.
fn contents_lines(rt: &HostRuntime, settings: Settings, rates: &[u32], beacon_rates: &[u32]) {
    let count = |n: &u32| {
        let _ = print!(rt; "{n} ");
    };
    settings_line(rt, settings);
    line(rt, rates, &count);
    line(rt, beacon_rates, &count);
}

// What stands for the settings of a kind that has none: the output has their numbers, and `Settings` no default but the fresh ones.
const NO_SETTINGS: Settings = Settings {
    limhi: 0,
    eonly: false,
    toferror: false,
    junk: false,
    hv: false,
    hvstep: 0,
};

// Number, kind, header and frame, table sum, p, mark; and what the kind has. Zeros for what it has not.
fn read_lines(rt: &HostRuntime, packet: Packet) {
    let header = Header(packet);
    match packet.contents {
        Contents::Rate {
            mark,
            rates,
            settings,
            sum,
        } => {
            let _ = println!(rt; "0 1 {header} {sum} 0 {} ", mark.number());
            contents_lines(rt, settings, &rates, &[0; BEACON_RATES]);
        }
        Contents::Sample { p } => {
            let _ = println!(rt; "0 2 {header} 0 {p} 0 ");
            contents_lines(rt, NO_SETTINGS, &[0; RATES], &[0; BEACON_RATES]);
        }
        Contents::Beacon {
            mark,
            rates: beacon_rates,
        } => {
            let _ = println!(rt; "0 3 {header} 0 0 {} ", mark.number());
            contents_lines(rt, NO_SETTINGS, &[0; RATES], &beacon_rates);
        }
    }
}

// The number that the reader answers.
pub fn number(rt: &HostRuntime, bytes: &[u8]) {
    let _ = println!(rt; "{}", call_number(&ground::read(bytes)));
}

// A packet's bytes, and all that the reader answers for it.
pub fn packet(rt: &HostRuntime, bytes: &[u8]) {
    let hex = |b: &u8| {
        let _ = print!(rt; "{b:02x}");
    };
    line(rt, bytes, &hex);
    match ground::read(bytes) {
        Ok(packet) => read_lines(rt, packet),
        Err(_) => number(rt, bytes),
    }
    line(rt, ground::records(bytes), &hex);
}
