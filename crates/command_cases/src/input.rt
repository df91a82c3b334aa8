// The cases: a line of digits each, two digits a byte.
ghost use Rattle.std.specs.Prelude.{◌≤◌, ◌<◌, length};

use crate::cases::case;

const LF: u8 = b'\n';

// The most bytes of a case.
const MOST: usize = 1024;

// A digit's value; 0 for any other byte. Not the commands' own: no test takes it from the code that it tests.
fn digit(b: u8) -> u8
    ensures { result < 16 }
{
    match b {
        b'0'..=b'9' => b - b'0',
        b'a'..=b'f' => b - b'a' + 10,
        _ => 0,
    }
}

// The bytes of a case, each of two digits, at the start of `out`; answers how many.
fn decode(line: &[u8], out: &mut [u8]) -> usize
    ensures { result ≤ length out.new }
{
    let (pairs, _) = line.as_chunks::<2>();
    for (byte, pair) in out.iter_mut().zip(pairs) {
        *byte = 16 * digit(pair[0]) + digit(pair[1]);
    }
    out.len().min(pairs.len())
}

fn run_line(rt: &HostRuntime, line: &[u8]) {
    let mut body = [0u8; MOST];
    let n = decode(line, &mut body);
    case(rt, &body[..n]);
}

// Each line, in order. Behind the last line feed stands an empty one, which is no case.
pub fn run(rt: &HostRuntime, text: &[u8]) {
    for line in text.split(|b| *b == LF) {
        run_line(rt, line);
    }
}
