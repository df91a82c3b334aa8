// What the program says on standard error.
use crate::counts::Counts;
use buffered::transfer::{write_all, write_decimal};

// Each part is written, whatever became of those before it, and tried again however often a signal interrupts it.
fn say(rt: &HostRuntime, text: &[u8]) {
    let _ = write_all(&mut rt.stderr(), text);
}

fn say_number(rt: &HostRuntime, n: u64) {
    let _ = write_decimal(&mut rt.stderr(), n);
}

// How the program is called.
pub fn usage(rt: &HostRuntime) {
    say(rt, b"usage: convert second|first < packets > converted\n");
}

// That the input ended n bytes behind the last whole packet.
pub fn ends_within(rt: &HostRuntime, n: usize) {
    if n != 0 {
        say(rt, b"the input ends within a packet: its ");
        say_number(rt, n as u64);
        say(rt, b" bytes are written as they are\n");
    }
}

// A number of packets, and by which number they were refused.
fn say_refused(rt: &HostRuntime, n: u64, by: &[u8]) {
    say_number(rt, n);
    say(rt, b" by ");
    say(rt, by);
}

// How many packets were converted, passed on, and refused by each number.
pub fn counted(rt: &HostRuntime, counts: Counts) {
    let Counts {
        converted,
        passed,
        headers,
        sums,
        bodies,
        codes,
    } = counts;
    say_number(rt, converted);
    say(rt, b" converted, ");
    say_number(rt, passed);
    say(rt, b" passed on, refused: ");
    say_refused(rt, headers, b"11, ");
    say_refused(rt, sums, b"12, ");
    say_refused(rt, bodies, b"13, ");
    say_refused(rt, codes, b"17\n");
}
