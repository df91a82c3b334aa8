// The two converters with an output buffer that is empty, of the right length, and one off: given a rate packet of the
// edition to be converted, and no byte.
use causes::{Cause, call_number};
use converter::{to_first, to_second};
use packet::applications::RATE_APPLICATION;
use packet::envelope::{write_header, write_sum};
use packet::layout::{MARK_AT, PACKET_BYTES};

// A rate packet of zeros but for its mark, a byte as document 01 gives it: no test takes it from the code that it tests.
fn zero_rates(mark: u8) -> [u8; PACKET_BYTES] {
    let mut packet = [0u8; PACKET_BYTES];
    write_header(&mut packet, RATE_APPLICATION, 0, 0);
    packet[MARK_AT] = mark;
    write_sum(&mut packet);
    packet
}

// One converter, and an output buffer.
fn case<F: Fn(&[u8], &mut [u8]) -> Result<(), Cause>>(
    rt: &HostRuntime,
    name: &str,
    packet: &[u8],
    convert: &F,
    out: &mut [u8],
)
    requires { F.IsAlwaysCallable convert.now }
{
    let n = call_number(&convert(packet, out));
    let _ = println!(rt; "{name}-out-{} {n}", out.len());
    let m = call_number(&convert(&[], out));
    let _ = println!(rt; "{name}-out-{}-of-no-byte {m}", out.len());
}

// One converter, and a rate packet that it converts.
fn cases<F: Fn(&[u8], &mut [u8]) -> Result<(), Cause>>(
    rt: &HostRuntime,
    name: &str,
    packet: &[u8],
    convert: &F,
)
    requires { F.IsAlwaysCallable convert.now }
{
    let mut long = [0u8; 273];
    for n in [0, 271, 272, 273] {
        case(rt, name, packet, convert, &mut long[..n]);
    }
}

pub fn run(rt: &HostRuntime) {
    cases(rt, "second", &zero_rates(0), &to_second);
    cases(rt, "first", &zero_rates(2), &to_first);
}
