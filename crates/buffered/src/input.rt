// Standard input, read in large pieces into a lent buffer.
ghost use Rattle.std.specs.Prelude.{◌≡◌, ◌-◌, ◌≤◌, List, ℕ, [], length, take, drop};
ghost use Rattle.buffered.specs.Input.{Begins};

use crate::text::Text;
use crate::transfer::tell;
use std::io::{Error, ErrorKind, Read};
use std::marker::Model;

// The bytes of a buffer from `at` to before `end` are read and not yet used.
#[derive(Clone, Copy)]
pub struct Input {
    pub at: usize,
    pub end: usize,
}

// A lent buffer, and where its bytes wait: a contract sees these. No `BufReader`, whose buffer is on the heap.
#[derive(Drop)]
pub struct Reader<'a> {
    buffer: &'a mut [u8],
    waits: Input,
}

impl<'a> Model for Reader<'a> {
    ghost Value = { List ℕ };

    ghost view = { λ r. take (r.waits.end - r.waits.at) (drop r.waits.at r.buffer.now) };

    ghost invariant = { λ r. (r.waits.at ≤ r.waits.end) × (r.waits.end ≤ length r.buffer.now) };
}

// Room for the longest body, and for much input at a time.
pub const INPUT_BYTES: usize = 131072;

// What was read: how many bytes there are now, and the failure of the last read. No `Result`, since what was read before a failure
// counts.
#[derive(Clone, Copy)]
pub struct Filled {
    pub bytes: usize,
    pub failed: Option<Error>,
}

// Reads behind the first `held` bytes until there are n, the buffer is full, the input ends or a read fails. One that a
// signal interrupts is tried again. Nothing says that the input ends, so the turns are counted, up to a number that no run
// uses up.
fn read_behind<R: Read>(from: &mut R, buffer: &mut [u8], held: usize, n: usize) -> Filled
    requires { held ≤ length buffer.old }
    ensures held_le_bytes { (held ≤ result.bytes) × (result.bytes ≤ length buffer.old) }
    ensures buffer_unchanged { take held buffer.new ≡ take held buffer.old }
{
    let mut bytes = held;
    for _ in 0..u64::MAX {
        if n <= bytes {
            break;
        }
        match from.read(&mut buffer[bytes..]) {
            Ok(0) => break,
            Ok(more) => bytes += more,
            Err(error) if error.kind() == ErrorKind::Interrupted => {}
            Err(error) => {
                return Filled {
                    bytes,
                    failed: Some(error),
                };
            }
        }
    }
    Filled {
        bytes,
        failed: None,
    }
}

// The same; a failed read is told as what could not be done.
fn read_told<R: Read>(
    rt: &HostRuntime,
    from: &mut R,
    buffer: &mut [u8],
    held: usize,
    n: usize,
    what: &[u8],
) -> Filled
    requires { held ≤ length buffer.old }
    ensures held_le_bytes { (held ≤ result.bytes) × (result.bytes ≤ length buffer.old) }
    ensures buffer_unchanged { take held buffer.new ≡ take held buffer.old }
{
    let got = read_behind(from, buffer, held, n);
    if let Some(error) = got.failed {
        tell(rt, what, error);
    }
    got
}

// Fills the buffer as far as the file goes. A failed read is told as what could not be done: bytes, as they are written.
pub fn read_full<R: Read>(rt: &HostRuntime, from: &mut R, buffer: &mut [u8], what: &[u8]) -> Filled
    ensures { result.bytes ≤ length buffer.old }
{
    let n = buffer.len();
    read_told(rt, from, buffer, 0, n, what)
}

impl<'a> Reader<'a> {
    // Nothing is read yet.
    pub fn new(buffer: &'a mut [u8]) -> Reader<'a>
        ensures { result ≡ [] }
    {
        Reader {
            buffer,
            waits: Input { at: 0, end: 0 },
        }
    }

    // The bytes that wait.
    pub fn waiting(&self) -> &[u8]
        ensures { result.now ≡ self.now }
    {
        &self.buffer[self.waits.at..self.waits.end]
    }

    // The first n bytes are used.
    pub fn skip(&mut self, n: usize)
        requires { n ≤ length self.old }
        ensures { self.new ≡ drop n self.old }
    {
        self.waits.at += n;
    }

    // Reads until n bytes wait, or as many as are left of the input. Those that waited still do, in front. A read may wait for
    // input, so the text is written out before it. A failed read ends the run.
    pub fn fill(&mut self, n: usize, text: &mut Text)
        ensures { Begins self.old self.new }
    {
        let held = self.waits.end - self.waits.at;
        if n <= held {
            return;
        }
        text.flush();
        if text.failed() {
            return;
        }
        self.buffer.copy_within(self.waits.at..self.waits.end, 0);
        self.waits = Input { at: 0, end: held };
        self.read(n, text);
    }

    // The same of a buffer whose bytes wait at its start.
    fn read(&mut self, n: usize, text: &mut Text)
        ensures { Begins self.old self.new }
    {
        let rt = text.rt();
        let what = b"cannot read standard input";
        let held = self.waits.end - self.waits.at;
        let got = read_told(
            rt,
            &mut rt.stdin(),
            &mut self.buffer[self.waits.at..],
            held,
            n,
            what,
        );
        if got.failed.is_some() {
            text.fail();
        }
        self.waits.end = self.waits.at + got.bytes;
    }
}
