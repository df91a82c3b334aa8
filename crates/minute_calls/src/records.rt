// The records of minute: each kind has a body of one length.
ghost use Rattle.std.specs.Prelude.{◌≡◌, ◌≤◌, unwrap_or};
ghost use Rattle.stream.specs.Kind.{kind_number};
ghost use Rattle.minute_calls.specs.Record.{Long, FirstOf};

use stream::kind::{BadRecord, Kind};
use stream::record::{Next, whole};
use stream::session::Session;

// A line's body, zero-filled.
const LINE_BYTES: usize = 80;

// The length of a kind's body; none for a kind of replay. No method of `Kind`: replay reads a
// line by another length.
fn body_bytes(kind: Kind) -> Option<usize>
    ensures { (unwrap_or result 0 ≤ 80) × Long (kind_number kind) (unwrap_or result 0) }
{
    match kind {
        Kind::Line => Some(LINE_BYTES),
        _ => kind.fixed_bytes(),
    }
}

// The record that stands next in the input, its body right behind its kind.
pub fn next(session: &mut Session) -> Next
    ensures { FirstOf result session.old.input session.new.input }
{
    session.fill(1);
    let Some(first) = session.waiting().first() else {
        return Ok(None);
    };
    let kind = Kind::try_from(*first)?;
    let n = body_bytes(kind).ok_or(BadRecord)?;
    whole(session, kind, 1, n)
}
