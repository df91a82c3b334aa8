// Reads packets of 272 bytes one after the other from standard input and writes each to standard output: a rate or beacon
// packet in the edition asked for, any other, and one that is refused, as it is.
#![tactic(auto)]

ghost use Rattle.std.specs.Prelude.{◌≡◌, length};

mod block;
mod counts;
mod report;

use buffered::input::read_full;
use buffered::text::print;
use packet::layout::PACKET_BYTES;
use rate_code::editions::Mark;
use std::env::{Env, FillError};

// So many packets are read and written at a time.
const BLOCK_PACKETS: usize = 480;

const BLOCK_BYTES: usize = PACKET_BYTES * BLOCK_PACKETS;

// Whether there are no more arguments than one.
fn is_alone(rt: &HostRuntime) -> bool {
    let mut argument = [0u8; 1];
    matches!(rt.arg(2, &mut argument), Err(FillError::NotPresent))
}

// Whether the only argument is this word.
fn asked_for(rt: &HostRuntime, word: &[u8]) -> bool {
    let mut argument = [0u8; 8];
    match rt.arg(1, &mut argument) {
        Ok(n) => is_alone(rt) & (&argument[..n] == word),
        Err(_) => false,
    }
}

// Converts block after block until the input ends, or a read or a write fails. Nothing says that the input ends, so the
// turns are counted, up to a number that no run uses up.
fn run(rt: &HostRuntime, wanted: Mark, block: &mut [u8], out: &mut [u8])
    requires { length block.old ≡ length out.old }
{
    let mut counts = counts::none();
    let mut rest = 0;
    for _ in 0..u64::MAX {
        let filled = read_full(rt, &mut rt.stdin(), block, b"cannot read standard input");
        let n = filled.bytes;
        counts = block::write_block(wanted, &block[..n], &mut out[..n], counts);
        if !print(rt, &out[..n]) {
            return;
        }
        rest = n % PACKET_BYTES;
        if (n < block.len()) | filled.failed.is_some() {
            break;
        }
    }
    report::ends_within(rt, rest);
    report::counted(rt, counts);
}

fn main(rt: HostRuntime) {
    let mut block = [0u8; BLOCK_BYTES];
    let mut out = [0u8; BLOCK_BYTES];
    if asked_for(&rt, b"second") {
        run(&rt, Mark::Converted, &mut block, &mut out);
    } else if asked_for(&rt, b"first") {
        run(&rt, Mark::First, &mut block, &mut out);
    } else {
        report::usage(&rt);
    }
}
