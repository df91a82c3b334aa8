// The bodies of the records that both programs read.
ghost use Rattle.std.specs.Prelude.{◌≡◌, ◌+◌, ◌≤◌, ◌<◌, length, get_or, IfOk};
ghost use Rattle.causes.specs.Causes.{call_number};
ghost use Rattle.wire.specs.Bytes.{at32};
ghost use Rattle.processor.specs.Close.{close_done};
ghost use Rattle.processor.specs.Reading.{reading_done};
ghost use Rattle.buffered.specs.Input.{input_bytes};
ghost use Rattle.stream.specs.Kind.{kind_number};
ghost use Rattle.stream.specs.Record.{FoundIn, IsOf, body_in, event_of, record_done, counts_in};

use crate::kind::{BadRecord, Kind};
use crate::session::Session;
use boxes::TOTALS;
use causes::{Cause, check};
use output::Summary;
use sort::event::Event;
use state::State;
use wire::bits::is_set;
use wire::number::BigEndian;

// A record that stands first where bytes wait: its body goes from `from` to before `to`, and the rest of the input stands
// behind it.
#[derive(Clone, Copy)]
pub struct Record {
    pub kind: Kind,
    pub from: usize,
    pub to: usize,
}

// What stands next in the input: a record, or nothing where it stopped before a kind byte.
pub type Next = Result<Option<Record>, BadRecord>;

impl Record {
    pub fn body(self, waiting: &[u8]) -> &[u8]
        requires { (self.from ≤ self.to) × (self.to ≤ length waiting.now) }
        ensures { result.now ≡ body_in self waiting.now }
    {
        &waiting[self.from..self.to]
    }
}

// The next record, whose body is the n bytes behind its first `head` ones.
pub fn whole(session: &mut Session, kind: Kind, head: usize, n: usize) -> Next
    requires le_head { (1 ≤ head) × (head + n ≤ input_bytes) }
    requires at_lt_end { (0 < length session.old.input) × (get_or session.old.input 0 0 ≡ kind_number kind) }
    ensures found_in { FoundIn result session.old.input session.new.input }
    ensures of { IsOf (kind_number kind) head n result }
{
    let to = head + n;
    session.fill(to);
    if session.waiting().len() < to {
        return Err(BadRecord);
    }
    Ok(Some(Record {
        kind,
        from: head,
        to,
    }))
}

// The same by the number of its kind; a byte of no kind is a bad record.
pub fn whole_byte(session: &mut Session, kind: u8, head: usize, n: usize) -> Next
    requires le_head { (1 ≤ head) × (head + n ≤ input_bytes) }
    requires at_lt_end { (0 < length session.old.input) × (get_or session.old.input 0 0 ≡ kind) }
    ensures found_in { FoundIn result session.old.input session.new.input }
    ensures of { IsOf kind head n result }
{
    whole(session, Kind::try_from(kind)?, head, n)
}

// The flags' values in an event's last byte, and the largest that they make.
const FLG0: u8 = 1;

const FLG1: u8 = 2;

const ERROR: u8 = 4;

const STOP: u8 = 8;

const LAST_FLAGS: u8 = 15;

// A body is a slice of the length that its kind has. As an array each call would begin with a branch for other lengths, which no
// body has.
#[tactic(auto, unfolding(crate::specs::Record::event_of))]
fn event_in(body: &[u8]) -> Event
    requires { length body.now ≡ 7 }
    ensures { result ≡ event_of body.now }
{
    let flags = body[6];
    Event {
        t: u16::read(body, 0),
        high: u16::read(body, 2),
        low: u16::read(body, 4),
        flg0: is_set(flags, FLG0),
        flg1: is_set(flags, FLG1),
        error: is_set(flags, ERROR),
        stop: is_set(flags, STOP),
    }
}

// One event. A flag byte over 15 is a field over its range.
#[tactic(auto, unfolding(crate::specs::Record::record_done))]
pub fn event(state: &mut State, tables: &[u8], slots: &mut [u32], body: &[u8]) -> Result<(), Cause>
    requires { length body.now ≡ 7 }
    ensures number { call_number result ≡ (record_done state.old tables.now slots.old body.now).answer.number }
    ensures state { state.new ≡ (record_done state.old tables.now slots.old body.now).answer.state }
    ensures slots { slots.new ≡ (record_done state.old tables.now slots.old body.now).slots }
{
    check(body[6] <= LAST_FLAGS, Cause::FieldRange)?;
    processor::event::event(state, tables, slots, event_in(body))
}

// Eight counts. No `array::from_fn`: its closure would need a contract for each place, longer than these lines.
fn counts_in(body: &[u8]) -> [u16; TOTALS]
    requires { length body.now ≡ 16 }
    ensures { result ≡ counts_in body.now }
{
    [
        u16::read(body, 0),
        u16::read(body, 2),
        u16::read(body, 4),
        u16::read(body, 6),
        u16::read(body, 8),
        u16::read(body, 10),
        u16::read(body, 12),
        u16::read(body, 14),
    ]
}

// One second reading.
pub fn reading(state: &mut State, body: &[u8]) -> Result<(), Cause>
    requires { length body.now ≡ 16 }
    ensures number { call_number result ≡ (reading_done state.old (counts_in body.now)).number }
    ensures state { state.new ≡ (reading_done state.old (counts_in body.now)).state }
{
    processor::reading::reading(state, counts_in(body))
}

// The end of an interval, its packets written into `out`.
pub fn close(
    state: &mut State,
    tables: &mut [u8],
    staging: &[u8],
    slots: &mut [u32],
    body: &[u8],
    out: &mut [u8],
) -> Result<Summary, Cause>
    requires { length body.now ≡ 4 }
    ensures number { call_number result
        ≡ (close_done state.old (at32 body.now 0) tables.old staging.now slots.old out.old).answer.number }
    ensures state { state.new
        ≡ (close_done state.old (at32 body.now 0) tables.old staging.now slots.old out.old).answer.state }
    ensures summary { IfOk result (λ summary. summary
        ≡ (close_done state.old (at32 body.now 0) tables.old staging.now slots.old out.old).answer.summary) }
    ensures tables { tables.new
        ≡ (close_done state.old (at32 body.now 0) tables.old staging.now slots.old out.old).tables }
    ensures slots { slots.new
        ≡ (close_done state.old (at32 body.now 0) tables.old staging.now slots.old out.old).slots }
    ensures out { out.new
        ≡ (close_done state.old (at32 body.now 0) tables.old staging.now slots.old out.old).out }
{
    processor::close::close(state, u32::read(body, 0), tables, staging, slots, out)
}
