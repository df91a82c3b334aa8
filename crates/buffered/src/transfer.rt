// Writes, which go on after a short one and are tried again after a signal, and failures, told on standard error.
use crate::reason::write_reason;
use std::env::Env;
use std::io::{Error, Result, Write};

// Writes all the bytes, tried again however often a signal interrupts it: the `write_all` of `Stdout` and `Stderr` themselves, which
// is that of `Print`, gives up.
pub fn write_all<W: Write>(to: &mut W, bytes: &[u8]) -> Result<()> {
    to.write_all(bytes)
}

// Writes the digits of a number, in base ten.
pub fn write_decimal<W: Write>(to: &mut W, n: u64) -> Result<()> {
    let mut digits = [0u8; 20];
    let k = io::decimal(n, &mut digits);
    to.write_all(&digits[..k])
}

// The longest name of a program that is told.
const NAME_BYTES: usize = 4096;

// Writes the program's name.
fn write_name<W: Write>(rt: &HostRuntime, to: &mut W) {
    let mut name = [0u8; NAME_BYTES];
    if let Ok(n) = rt.arg(0, &mut name) {
        let _ = to.write_all(&name[..n]);
    }
}

// A line of the program's name, what it could not do, and the system's text for the reason. Each part is written, whatever became
// of those before it.
fn write_failure<W: Write>(rt: &HostRuntime, to: &mut W, what: &[u8], error: Error) {
    write_name(rt, to);
    let _ = to.write_all(b": ");
    let _ = to.write_all(what);
    let _ = to.write_all(b": ");
    let _ = write_reason(to, error);
    let _ = to.write_all(b"\n");
}

// The same on standard error. That it cannot be told is not told.
pub fn tell(rt: &HostRuntime, what: &[u8], error: Error) {
    write_failure(rt, &mut rt.stderr(), what, error);
}
