// Lent buffers one shorter and one longer than they must be, and empty ones, over a fresh state; in each case the other
// buffers are right. Then calls that more than one cause refuses.
use crate::calls::{
    BITMAP_BYTES, CHANNEL, ECHO_BYTES, OUT_BYTES, SLOTS, STAGING_BYTES, TABLE_BYTES, close, event,
    lengths, line, package,
};
use causes::call_number;

// A package of no bytes, with its sum.
const EMPTY_PACKAGE: [u8; 4] = [0, 2, 0, 0];

fn table_cases(rt: &HostRuntime) {
    let mut long = [0u8; TABLE_BYTES + 1];
    lengths(rt, "event-tables", &mut long, |tables: &mut [u8]| {
        event(tables, &mut [0u32; SLOTS], CHANNEL)
    });
    lengths(rt, "close-tables", &mut long, |tables: &mut [u8]| {
        let staging = [0u8; STAGING_BYTES];
        close(tables, &staging, &mut [0u32; SLOTS], &mut [0u8; OUT_BYTES])
    });
}

fn slot_cases(rt: &HostRuntime) {
    let mut long = [0u32; SLOTS + 1];
    lengths(rt, "event-slots", &mut long, |slots: &mut [u32]| {
        event(&[0u8; TABLE_BYTES], slots, CHANNEL)
    });
    lengths(rt, "close-slots", &mut long, |slots: &mut [u32]| {
        let mut tables = [0u8; TABLE_BYTES];
        close(
            &mut tables,
            &[0u8; STAGING_BYTES],
            slots,
            &mut [0u8; OUT_BYTES],
        )
    });
}

fn staging_cases(rt: &HostRuntime) {
    let mut long = [0u8; STAGING_BYTES + 1];
    lengths(rt, "package-staging", &mut long, |staging: &mut [u8]| {
        let mut bitmap = [0u8; BITMAP_BYTES];
        package(&EMPTY_PACKAGE, staging, &mut bitmap, &mut [0u8; ECHO_BYTES])
    });
    lengths(rt, "close-staging", &mut long, |staging: &mut [u8]| {
        let mut tables = [0u8; TABLE_BYTES];
        close(
            &mut tables,
            staging,
            &mut [0u32; SLOTS],
            &mut [0u8; OUT_BYTES],
        )
    });
}

fn echo_cases(rt: &HostRuntime) {
    let mut long = [0u8; ECHO_BYTES + 1];
    lengths(rt, "line-echo", &mut long, |echo: &mut [u8]| {
        line(b"hv 1", &[0u8; STAGING_BYTES], &[0u8; BITMAP_BYTES], echo)
    });
    lengths(rt, "package-echo", &mut long, |echo: &mut [u8]| {
        let mut staging = [0u8; STAGING_BYTES];
        package(&EMPTY_PACKAGE, &mut staging, &mut [0u8; BITMAP_BYTES], echo)
    });
}

fn output_cases(rt: &HostRuntime) {
    let mut long = [0u8; OUT_BYTES + 1];
    lengths(rt, "close-output", &mut long, |out: &mut [u8]| {
        let mut tables = [0u8; TABLE_BYTES];
        close(&mut tables, &[0u8; STAGING_BYTES], &mut [0u32; SLOTS], out)
    });
}

fn line_staging_cases(rt: &HostRuntime) {
    let mut long = [0u8; STAGING_BYTES + 1];
    lengths(rt, "line-staging", &mut long, |staging: &mut [u8]| {
        line(
            b"hv 1",
            staging,
            &[0u8; BITMAP_BYTES],
            &mut [0u8; ECHO_BYTES],
        )
    });
}

fn bitmap_cases(rt: &HostRuntime) {
    let mut long = [0u8; BITMAP_BYTES + 1];
    lengths(rt, "line-bitmap", &mut long, |bitmap: &mut [u8]| {
        line(
            b"hv 1",
            &[0u8; STAGING_BYTES],
            bitmap,
            &mut [0u8; ECHO_BYTES],
        )
    });
    lengths(rt, "package-bitmap", &mut long, |bitmap: &mut [u8]| {
        let mut staging = [0u8; STAGING_BYTES];
        package(&EMPTY_PACKAGE, &mut staging, bitmap, &mut [0u8; ECHO_BYTES])
    });
}

// ---- calls that more than one cause refuses: the lowest number that applies is given, 1 before any other

fn line_case(rt: &HostRuntime, name: &str, of_echo: &str, bytes: &[u8], echo: &mut [u8]) {
    let answer = line(bytes, &[0u8; STAGING_BYTES], &[0u8; BITMAP_BYTES], echo);
    let _ = println!(rt; "{name}{of_echo} {}", call_number(&answer));
}

// Lent these buffers, of whose lengths `told` has what stands behind the names.
fn lowest_cases(
    rt: &HostRuntime,
    slots: &mut [u32],
    echo: &mut [u8],
    staging: &mut [u8],
    told: [&str; 3],
) {
    let [of_slots, of_echo, of_staging] = told;
    let answer = event(&[0u8; TABLE_BYTES], slots, 512);
    let _ = println!(rt; "event-t-512{of_slots} {}", call_number(&answer));
    line_case(rt, "line-of-byte-9", of_echo, &[9], echo);
    line_case(rt, "line-hv-2", of_echo, b"hv 2", echo);
    line_case(rt, "empty-line", of_echo, b"", echo);
    let mut bitmap = [0u8; BITMAP_BYTES];
    let answer = package(b"", staging, &mut bitmap, &mut [0u8; ECHO_BYTES]);
    let _ = println!(rt; "package-of-no-byte{of_staging} {}", call_number(&answer));
}

fn short_cases(rt: &HostRuntime) {
    let mut slots = [0u32; 703];
    let mut staging = [0u8; 62984];
    let told = ["-slots-703", "-echo-127", "-staging-62984"];
    lowest_cases(rt, &mut slots, &mut [0u8; 127], &mut staging, told);
}

fn right_cases(rt: &HostRuntime) {
    let mut staging = [0u8; STAGING_BYTES];
    let mut echo = [0u8; ECHO_BYTES];
    lowest_cases(rt, &mut [0u32; SLOTS], &mut echo, &mut staging, [""; 3]);
}

pub fn run(rt: &HostRuntime) {
    table_cases(rt);
    slot_cases(rt);
    staging_cases(rt);
    echo_cases(rt);
    output_cases(rt);
    line_staging_cases(rt);
    bitmap_cases(rt);
    crate::listings::lengths(rt);
    short_cases(rt);
    right_cases(rt);
    crate::listings::lowest(rt);
}
