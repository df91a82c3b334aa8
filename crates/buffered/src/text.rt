// Text for standard output, gathered in a lent buffer. A full buffer is written out.
ghost use Rattle.std.specs.Prelude.{◌≡◌, ◌≤◌, true, false, length};

use crate::transfer::{tell, write_all};
use echo::hex_digit;
use itoa::Buffer;
use std::fmt;
use std::fmt::{Display, Formatter};
use std::io::{Error, ErrorKind};

pub const TEXT_BYTES: usize = 65536;

// Why standard output took no more bytes. A write that moves none is told in fewer words than `write_all` has for it.
fn reason(error: Error) -> Error {
    match error.kind() {
        ErrorKind::WriteZero => Error::from(ErrorKind::WriteZero),
        _ => error,
    }
}

// Writes the bytes to standard output; whether all of them: a `bool`, since what failed is told here. That nobody reads them any
// more is not.
pub fn print(rt: &HostRuntime, bytes: &[u8]) -> bool {
    match write_all(&mut rt.stdout(), bytes) {
        Ok(()) => true,
        Err(error) => {
            if error.kind() != ErrorKind::BrokenPipe {
                tell(rt, b"cannot write standard output", reason(error));
            }
            false
        }
    }
}

// Two digits for each byte, for which there is room.
fn write_hex(room: &mut [u8], s: &[u8]) {
    for (pair, b) in room.chunks_exact_mut(2).zip(s) {
        pair[0] = hex_digit(*b / 16);
        pair[1] = hex_digit(*b % 16);
    }
}

// The first `filled` bytes of the buffer are not yet written. Once a read or a write has failed, nothing is written any
// more, and no more input read. No `BufWriter`, whose buffer is on the heap.
#[derive(Drop)]
pub struct Text<'a> {
    rt: &'a HostRuntime,
    buffer: &'a mut [u8],
    filled: usize,
    failed: bool,
    ghost within: { filled ≤ length buffer.now },
}

impl<'a> Text<'a> {
    // Nothing is gathered yet, and nothing has failed.
    pub fn new(rt: &'a HostRuntime, buffer: &'a mut [u8]) -> Text<'a>
        ensures { (result.filled ≡ 0) × (result.failed ≡ false) }
    {
        Text {
            rt,
            buffer,
            filled: 0,
            failed: false,
        }
    }

    pub fn failed(&self) -> bool
        ensures { result ≡ self.now.failed }
    {
        self.failed
    }

    pub(crate) fn rt(&self) -> &'a HostRuntime {
        self.rt
    }

    // A read has failed.
    pub(crate) fn fail(&mut self)
        ensures { self.new.failed ≡ true }
    {
        self.failed = true;
    }

    // Writes out what is filled.
    pub fn flush(&mut self) {
        if !self.failed {
            self.failed = !print(self.rt, &self.buffer[..self.filled]);
            self.filled = 0;
        }
    }

    pub fn byte(&mut self, b: u8) {
        if self.filled == self.buffer.len() {
            self.flush();
        }
        if self.filled < self.buffer.len() {
            self.buffer[self.filled] = b;
            self.filled += 1;
        }
    }

    // Copied at once where all of them fit; a single one, as a space or a digit, by itself, which takes less time than a copy.
    pub fn bytes(&mut self, s: &[u8]) {
        if let [b] = s {
            self.byte(*b);
        } else if s.len() <= self.buffer.len() - self.filled {
            let end = self.filled + s.len();
            self.buffer[self.filled..end].copy_from_slice(s);
            self.filled = end;
        } else {
            for b in s {
                self.byte(*b);
            }
        }
    }

    // Two digits for each byte, written at once where all of them fit. By a `Display` each digit would take some eighty
    // instructions.
    pub fn hex(&mut self, s: &[u8]) {
        if s.len() <= (self.buffer.len() - self.filled) / 2 {
            let end = self.filled + 2 * s.len();
            write_hex(&mut self.buffer[self.filled..end], s);
            self.filled = end;
        } else {
            for b in s {
                self.byte(hex_digit(*b / 16));
                self.byte(hex_digit(*b % 16));
            }
        }
    }

    // What `write!` and `writeln!` call. A failure is not handed back, but kept.
    pub fn write_fmt<D: Display + Drop>(&mut self, text: D) {
        let _ = fmt::Write::write(self, text);
    }

    // What a bad kind or a short body prints.
    pub fn bad_record(&mut self) {
        self.bytes(b"bad record\n");
    }
}

impl<'a> fmt::Write for Text<'a> {
    fn write_str(&mut self, s: &str) -> fmt::Result {
        self.bytes(s.as_bytes());
        Ok(())
    }
}

// Numbers, each with a space before it. By `itoa`, since a `write!` for each would take more instructions.
#[derive(Clone, Copy)]
pub struct Numbers<'a>(pub &'a [u32]);

impl<'a> Display for Numbers<'a> {
    fn fmt<W: fmt::Write>(&self, f: &mut Formatter<W>) -> fmt::Result {
        let mut digits = Buffer::new();
        for n in self.0 {
            f.write_str(" ")?;
            f.write_str(digits.format(*n))?;
        }
        Ok(())
    }
}
