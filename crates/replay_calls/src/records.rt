// The records of a list of calls.
ghost use Rattle.std.specs.Prelude.{true, ◌≡◌, ◌≤◌, ◌<◌, length, get_or, unwrap_or};
ghost use Rattle.image.specs.Layout.{image_bytes};
ghost use Rattle.stream.specs.Kind.{kind_number};
ghost use Rattle.replay_calls.specs.Record.{is_counted, Long, FirstOf, body_right};

use image::layout::{IMAGE_BYTES, Image};
use stream::kind::{BadRecord, Kind};
use stream::record::{Next, whole};
use stream::session::Session;
use wire::number::BigEndian;

// A listing's body: which packet, and the time.
const LISTING_BYTES: usize = 6;

// Whether a body has its length in front. No method of `Kind`: only replay has such bodies.
fn is_counted(kind: Kind) -> bool
    ensures { result ≡ is_counted (kind_number kind) }
{
    matches!(
        kind,
        Kind::Line
            | Kind::Package
            | Kind::Packet
            | Kind::Gather
            | Kind::ToSecond
            | Kind::ToFirst
            | Kind::Slots
    )
}

// The length of a body that has none in front. No method of `Kind` either: minute knows none of these kinds.
fn body_bytes(kind: Kind) -> Option<usize>
    ensures { (unwrap_or result 0 ≤ image_bytes) × Long (kind_number kind) (unwrap_or result 0) }
{
    match kind {
        Kind::Listing => Some(LISTING_BYTES),
        Kind::State => Some(IMAGE_BYTES),
        Kind::Gathered | Kind::Show => Some(0),
        _ => kind.fixed_bytes(),
    }
}

// A kind byte and a length.
const COUNTED: usize = 3;

// A record whose body has its length in front, in two bytes.
fn counted(session: &mut Session, kind: Kind) -> Next
    requires kind_value { is_counted (kind_number kind) ≡ true }
    requires at_lt_end { (0 < length session.old.input) × (get_or session.old.input 0 0 ≡ kind_number kind) }
    ensures { FirstOf result session.old.input session.new.input }
{
    session.fill(COUNTED);
    let waiting = session.waiting();
    if waiting.len() < COUNTED {
        return Err(BadRecord);
    }
    let n = u16::read(waiting, 1);
    whole(session, kind, COUNTED, usize::from(n))
}

// The record that stands next in the input: minute's with one case more, of bodies that begin with their length.
pub fn next(session: &mut Session) -> Next
    ensures { FirstOf result session.old.input session.new.input }
{
    session.fill(1);
    let Some(first) = session.waiting().first() else {
        return Ok(None);
    };
    let kind = Kind::try_from(*first)?;
    if is_counted(kind) {
        return counted(session, kind);
    }
    let n = body_bytes(kind).ok_or(BadRecord)?;
    whole(session, kind, 1, n)
}

// Whether a body can be carried out: the bytes of a state are one, and slots come for all of so many. No other kind has a
// test, so this is a `match` and no table of tests.
#[tactic(auto, unfolding(crate::specs::Record::body_right))]
pub fn is_right(kind: Kind, body: &[u8], slots: usize) -> bool
    requires { Long (kind_number kind) (length body.now) }
    ensures { result ≡ body_right (kind_number kind) body.now slots }
{
    match kind {
        Kind::State => <&Image>::try_from(body).is_ok_and(image::judge::is_state),
        Kind::Slots => (body.len() % 4 == 0) & (body.len() / 4 == slots),
        _ => true,
    }
}

// The same by the number of its kind; a body of no kind has no test.
#[tactic(auto, using(stream::proofs::KindLaws::no_kind), unfolding(crate::specs::Record::body_right))]
pub fn is_right_byte(kind: u8, body: &[u8], slots: usize) -> bool
    requires { Long kind (length body.now) }
    ensures { result ≡ body_right kind body.now slots }
{
    match Kind::try_from(kind) {
        Ok(kind) => is_right(kind, body, slots),
        Err(BadRecord) => true,
    }
}
