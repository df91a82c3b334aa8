// One case: a kind byte, and its body.
ghost use Rattle.std.specs.Prelude.{◌≡◌, true, ◌≤◌};
ghost use Rattle.load.specs.Staging.{fits};

use crate::output::{digest, show_echo, show_line};
use causes::call_number;
use command::line::MAX_LINE;
use command::ranges::Ranges;
use echo::Echo;
use load::package::{Package, judge};
use load::staging::{Addresses, STAGING_BYTES};
use tables::TABLE_BYTES;
use wire::number::BigEndian;
use wire::read::u24_at;

// LIMHI's largest value in these cases.
const LIMHI_MOST: u16 = 0x2c0;

// 1: the reach in three bytes, and the line. Prints whether its bytes are right, and what it is.
fn line_case(rt: &HostRuntime, body: &[u8]) {
    if body.len() < 3 {
        return;
    }
    let line = &body[3..];
    let bytes = if command::line::bytes_ok(line) {
        "ok"
    } else {
        "wrong"
    };
    let _ = print!(rt; "line bytes {bytes}, ");
    let ranges = Ranges {
        reach: u24_at(body, 0),
        limhi: LIMHI_MOST,
    };
    show_line(rt, command::line::parse(line, ranges));
}

// 2: the frame in two bytes, the sequence number, and the line.
fn write_accepted(echo: &mut Echo, body: &[u8]) -> Option<()> {
    let line = body.get(3..)?;
    if MAX_LINE < line.len() {
        return None;
    }
    echo::write_accepted(echo, u16::read(body, 0), body[2], line);
    Some(())
}

// 3: the line.
fn write_refused(echo: &mut Echo, body: &[u8]) -> Option<()> {
    if MAX_LINE < body.len() {
        return None;
    }
    echo::write_refused(echo, body);
    Some(())
}

// 4: nothing.
fn write_prompt(echo: &mut Echo) -> Option<()> {
    echo::write_prompt(echo);
    Some(())
}

// 5: the address and the number of bytes, four bytes each.
fn write_right(echo: &mut Echo, body: &[u8]) -> Option<()> {
    if body.len() < 8 {
        return None;
    }
    echo::write_package_ok(echo, u32::read(body, 0), u32::read(body, 4));
    Some(())
}

// 6: the same, and the received and the computed sum, two bytes each.
fn write_wrong(echo: &mut Echo, body: &[u8]) -> Option<()> {
    if body.len() < 12 {
        return None;
    }
    let (next, many) = (u32::read(body, 0), u32::read(body, 4));
    let (received, computed) = (u16::read(body, 8), u16::read(body, 10));
    echo::write_package_error(echo, next, many, received, computed);
    Some(())
}

// Prints the echo of the kind, where the body has what it is made of. The kind is the
// byte that the case's line begins with: as an enum it would be matched in the same two places.
fn echo_case(rt: &HostRuntime, kind: u8, body: &[u8]) {
    let mut echo = [255u8; 128];
    let written = match kind {
        2 => write_accepted(&mut echo, body),
        3 => write_refused(&mut echo, body),
        4 => write_prompt(&mut echo),
        5 => write_right(&mut echo, body),
        _ => write_wrong(&mut echo, body),
    };
    if written.is_some() {
        show_echo(rt, &echo);
    }
}

// Bytes that differ from place to place.
fn fill(part: &mut [u8], step: u32) {
    let mut v: u32 = 7;
    for byte in part.iter_mut() {
        v = next_value(v, step);
        *byte = v as u8;
    }
}

fn next_value(v: u32, step: u32) -> u32
    requires { v ≤ 250 }
    ensures { result ≤ 250 }
{
    (3 * v + step % 256) % 251
}

// 7: next address and reach, three bytes each, and the package. Prints its number, how many bytes it brings, the two sums,
// the addresses afterwards and a digest of staging.
fn package_case(rt: &HostRuntime, body: &[u8]) {
    if body.len() < 6 {
        return;
    }
    let addresses = Addresses {
        next: u24_at(body, 0),
        reach: u24_at(body, 3),
    };
    let bytes = &body[6..];
    let judged = judge(bytes, addresses.next);
    let _ = print!(rt; "package {}", call_number(&judged));
    let Ok(sent) = Package::parse(bytes) else {
        return;
    };
    if sent.fits(addresses.next) {
        place(rt, &sent, addresses);
    }
}

fn place(rt: &HostRuntime, sent: &Package, addresses: Addresses)
    requires { fits sent.now.bytes.now addresses.next ≡ true }
{
    let (received, computed) = (sent.received_sum(), sent.computed_sum());
    let _ = print!(rt;
        " placed {} sums {received} {computed}",
        sent.payload_bytes()
    );
    let mut area = [0u8; STAGING_BYTES];
    fill(&mut area, 5);
    let mut after = addresses;
    after.place(&mut area, sent);
    let _ = print!(rt;
        " next {} reach {} staging {}",
        after.next,
        after.reach,
        digest(&area)
    );
}

// 8: the address in three bytes, how to pack, and the reach in three bytes. Prints whether the load is lawful, and
// then digests of the tables before and after it, and its first word.
#[tactic(auto, using(load::proofs::LoadLaws::lawful_start))]
fn load_case(rt: &HostRuntime, body: &[u8]) {
    if body.len() < 7 {
        return;
    }
    let (a, y, reach) = (u24_at(body, 0), body[3], u24_at(body, 4));
    if !load::words::load_lawful(a, y, reach) {
        let _ = print!(rt; "load unlawful");
        return;
    }
    let mut lookup = [0u8; TABLE_BYTES];
    fill(&mut lookup, 11);
    let before = digest(&lookup);
    let mut area = [0u8; STAGING_BYTES];
    fill(&mut area, 5);
    load::run::run_load(&mut lookup, &area, a, y, reach);
    let first = tables::word(&lookup, a as usize);
    let _ = print!(rt;
        "load lawful {before} {} first {first:06x}",
        digest(&lookup)
    );
}

pub fn case(rt: &HostRuntime, bytes: &[u8]) {
    let Some((kind, body)) = bytes.split_first() else {
        return;
    };
    match *kind {
        1 => line_case(rt, body),
        2..=6 => echo_case(rt, *kind, body),
        7 => package_case(rt, body),
        8 => load_case(rt, body),
        _ => {
            let _ = print!(rt; "no case");
        }
    }
    let _ = println!(rt; "");
}
