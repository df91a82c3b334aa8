// Damaged packets: each case prints the number that the reader answers. The places are those of document 01, written out.
use crate::show::number;
use packet::layout::{PACKET_BYTES, SUM_AT};
use wire::read::byte_sum;

// The packet cut to its first n bytes.
fn cut(rt: &HostRuntime, part: &[u8], n: usize) {
    if let Some(first) = part.get(..n) {
        number(rt, first);
    }
}

// The packet with another byte at `at`.
fn with_byte(part: &[u8], at: usize, v: u8) -> Option<[u8; PACKET_BYTES]> {
    let mut copy = [0u8; PACKET_BYTES];
    if part.len() != copy.len() {
        return None;
    }
    copy.copy_from_slice(part);
    *copy.get_mut(at)? = v;
    Some(copy)
}

// The same read, with its old sum.
fn changed(rt: &HostRuntime, part: &[u8], at: usize, v: u8) {
    if let Some(copy) = with_byte(part, at, v) {
        number(rt, &copy);
    }
}

fn sum_of(packet: &[u8; PACKET_BYTES]) -> u8 {
    (byte_sum(&packet[..SUM_AT]) % 256) as u8
}

// And with the sum of the changed bytes.
fn summed(rt: &HostRuntime, part: &[u8], at: usize, v: u8) {
    if let Some(mut copy) = with_byte(part, at, v) {
        copy[SUM_AT] = sum_of(&copy);
        number(rt, &copy);
    }
}

pub fn rate(rt: &HostRuntime, part: &[u8]) {
    // Not 272 bytes.
    cut(rt, part, 0);
    cut(rt, part, 271);
    // Version, type, secondary flag, application number, sequence flags, length, the zero behind the time.
    summed(rt, part, 0, 42);
    summed(rt, part, 0, 26);
    summed(rt, part, 0, 2);
    summed(rt, part, 1, 92);
    summed(rt, part, 2, 128);
    summed(rt, part, 5, 8);
    summed(rt, part, 10, 1);
    // Another sequence count, time or frame.
    summed(rt, part, 3, 1);
    summed(rt, part, 9, 121);
    summed(rt, part, 268, 1);
    // A byte or the sum alone.
    changed(rt, part, 20, 1);
    changed(rt, part, 271, 0);
    // A code of the second edition alone; one of neither; one that is in order.
    summed(rt, part, 13, 23);
    summed(rt, part, 13, 216);
    summed(rt, part, 13, 200);
    // Bytes and bits without use, LIMHI 705.
    summed(rt, part, 259, 1);
    summed(rt, part, 261, 209);
    summed(rt, part, 261, 216);
    summed(rt, part, 263, 193);
    // The mark of the first edition, whose codes these are not, and one of no edition.
    summed(rt, part, 269, 0);
    summed(rt, part, 269, 2);
    summed(rt, part, 269, 3);
    summed(rt, part, 270, 1);
}

pub fn sample(rt: &HostRuntime, part: &[u8]) {
    // Application numbers 617 and 615, p 9, byte 270.
    summed(rt, part, 1, 105);
    summed(rt, part, 1, 103);
    summed(rt, part, 269, 9);
    summed(rt, part, 270, 1);
    // Records of boxes 5, 117, 6 and 116; an empty one that is not.
    summed(rt, part, 14, 11);
    summed(rt, part, 14, 234);
    summed(rt, part, 14, 12);
    summed(rt, part, 14, 232);
    summed(rt, part, 42, 1);
    changed(rt, part, 14, 0);
}

pub fn beacon(rt: &HostRuntime, part: &[u8]) {
    // Application number 625, an unused byte first and last, other marks, byte 270, codes of beacons and of samples.
    summed(rt, part, 1, 113);
    summed(rt, part, 41, 1);
    summed(rt, part, 266, 1);
    summed(rt, part, 269, 0);
    summed(rt, part, 269, 2);
    summed(rt, part, 269, 3);
    summed(rt, part, 270, 1);
    summed(rt, part, 11, 255);
    summed(rt, part, 35, 208);
    summed(rt, part, 40, 1);
    changed(rt, part, 35, 1);
}
