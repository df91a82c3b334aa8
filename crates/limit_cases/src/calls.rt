// The calls of a fresh processor, and cases of one with a buffer of any length.
use capacity::Capacity;
use causes::{Cause, call_number};
use output::Summary;
use sort::event::Event;
use state::State;

// The lengths that lent buffers must have, as document 01 gives them: no test takes them from the code that it tests.
pub const TABLE_BYTES: usize = 62985;

pub const STAGING_BYTES: usize = 62985;

pub const BITMAP_BYTES: usize = 7874;

pub const SLOTS: usize = 704;

pub const ECHO_BYTES: usize = 128;

pub const OUT_BYTES: usize = 3536;

pub const PACKET_BYTES: usize = 272;

// A time-of-flight channel in its range.
pub const CHANNEL: u16 = 5;

fn fresh() -> State {
    state::fresh(Capacity::Slots704)
}

pub fn event(tables: &[u8], slots: &mut [u32], t: u16) -> Result<(), Cause> {
    let e = Event {
        t,
        high: 100,
        low: 0,
        flg0: false,
        flg1: false,
        error: false,
        stop: true,
    };
    processor::event::event(&mut fresh(), tables, slots, e)
}

pub fn line(line: &[u8], staging: &[u8], bitmap: &[u8], echo: &mut [u8]) -> Result<u32, Cause> {
    processor::line::line(&mut fresh(), line, staging, bitmap, echo)
}

pub fn package(
    bytes: &[u8],
    staging: &mut [u8],
    bitmap: &mut [u8],
    echo: &mut [u8],
) -> Result<(), Cause> {
    processor::load_package::package(&mut fresh(), bytes, staging, bitmap, echo)
}

pub fn close(
    tables: &mut [u8],
    staging: &[u8],
    slots: &mut [u32],
    out: &mut [u8],
) -> Result<Summary, Cause> {
    processor::close::close(&mut fresh(), 60, tables, staging, slots, out)
}

pub fn listing(i: u16, tables: &[u8], out: &mut [u8]) -> Result<(), Cause> {
    processor::listing::listing(&fresh(), i, 60, tables, out)
}

// A call with one buffer of some length, which stands in the case's name.
fn length<T, A: Drop, F: Fn(&mut [T]) -> Result<A, Cause>>(
    rt: &HostRuntime,
    name: &str,
    buffer: &mut [T],
    call: &F,
)
    requires { F.IsAlwaysCallable call.now }
{
    let answer = call(buffer);
    let _ = println!(rt; "{name}-{} {}", buffer.len(), call_number(&answer));
}

// A call with none of a buffer, all but its last two and the whole: lent one that is longer by one than is right, each is of
// a wrong length.
pub fn lengths<T, A: Drop, F: Fn(&mut [T]) -> Result<A, Cause>>(
    rt: &HostRuntime,
    name: &str,
    long: &mut [T],
    call: F,
)
    requires { F.IsAlwaysCallable call }
{
    let short = long.len().saturating_sub(2);
    length(rt, name, &mut long[..0], &call);
    length(rt, name, &mut long[..short], &call);
    length(rt, name, long, &call);
}
