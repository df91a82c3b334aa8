// The calls, and what is printed of their answers.
ghost use Rattle.std.specs.Prelude.{◌≡◌, ◌≤◌, length};
ghost use Rattle.causes.specs.Causes.{call_number};
ghost use Rattle.wire.specs.Bytes.{zeros, at32};
ghost use Rattle.load.specs.Bitmap.{bitmap_bytes};
ghost use Rattle.echo.specs.Echo.{echo_bytes};
ghost use Rattle.processor.specs.Line.{line_done};
ghost use Rattle.processor.specs.Close.{close_done};
ghost use Rattle.stream.specs.Kind.{kind_number};
ghost use Rattle.stream.specs.Record.{LongAs};
ghost use Rattle.stream.specs.Start.{out_bytes};
ghost use Rattle.minute_calls.specs.Calls.{kind_done};
ghost use Rattle.minute_calls.specs.Events.{EventsRun, NoEvent};
ghost use Rattle.minute_calls.specs.Line.{to_first_zero};

use buffered::text::Text;
use causes::Cause;
use echo::ECHO_BYTES;
use load::bitmap::BITMAP_BYTES;
use output::Summary;
use state::State;
use stream::kind::{BadRecord, EVENT_BYTES, Kind};
use stream::record::{close, event, reading};
use stream::start::OUT_BYTES;
use wire::words::length_before;

// A kind byte and an event.
const EVENT_RECORD: usize = 1 + EVENT_BYTES;

// What the calls work on: the state, and the buffers that they are lent. Replay's has two more, and writes to staging.
#[derive(Drop)]
pub struct Aboard<'a> {
    pub state: State,
    pub tables: &'a mut [u8],
    pub staging: &'a [u8],
    pub slots: &'a mut [u32],
}

// The line of a refused call; nothing of one that is carried out.
pub fn print_refusal(text: &mut Text, answer: Result<(), Cause>) {
    if let Err(cause) = answer {
        let number = cause.number();
        writeln!(text, "refused {number}");
    }
}

// The ended frame, taken, boxes 5, 6 and 7, and the filled slots.
fn print_closed(text: &mut Text, frame: u16, ended: Summary) {
    let Summary {
        taken,
        counts,
        filled,
        ..
    } = ended;
    let [_, _, _, _, box5, box6, box7, ..] = counts.boxes;
    writeln!(text, "{frame} {taken} {box5} {box6} {box7} {filled}");
}

// A line's body before its first zero.
fn line_in(body: &[u8]) -> &[u8]
    ensures { result.now ≡ to_first_zero body.now }
{
    &body[..length_before(body, 0)]
}

impl<'a> Aboard<'a> {
    // One command line. Its echo and its sum are not printed. No package comes to this program, so no staged byte is bad.
    fn line(&mut self, body: &[u8]) -> Result<(), Cause>
        ensures number { call_number result
            ≡ (line_done self.old.state (to_first_zero body.now) self.old.staging.now (zeros bitmap_bytes) (zeros echo_bytes)).answer.number }
        ensures state { self.new.state
            ≡ (line_done self.old.state (to_first_zero body.now) self.old.staging.now (zeros bitmap_bytes) (zeros echo_bytes)).answer.state }
        ensures tables { self.new.tables.now ≡ self.old.tables.now }
        ensures staging { self.new.staging.now ≡ self.old.staging.now }
        ensures slots { self.new.slots.now ≡ self.old.slots.now }
    {
        let line = line_in(body);
        let bitmap = [0u8; BITMAP_BYTES];
        let mut echo = [0u8; ECHO_BYTES];
        processor::line::line(&mut self.state, line, self.staging, &bitmap, &mut echo)?;
        Ok(())
    }

    // The end of the interval. Its packets are not printed.
    fn close(&mut self, body: &[u8], text: &mut Text) -> Result<(), Cause>
        requires { length body.now ≡ 4 }
        ensures number { call_number result
            ≡ (close_done self.old.state (at32 body.now 0) self.old.tables.now self.old.staging.now self.old.slots.now
            (zeros out_bytes)).answer.number }
        ensures state { self.new.state
            ≡ (close_done self.old.state (at32 body.now 0) self.old.tables.now self.old.staging.now self.old.slots.now
            (zeros out_bytes)).answer.state }
        ensures tables { self.new.tables.now
            ≡ (close_done self.old.state (at32 body.now 0) self.old.tables.now self.old.staging.now self.old.slots.now
            (zeros out_bytes)).tables }
        ensures staging { self.new.staging.now ≡ self.old.staging.now }
        ensures slots { self.new.slots.now
            ≡ (close_done self.old.state (at32 body.now 0) self.old.tables.now self.old.staging.now self.old.slots.now
            (zeros out_bytes)).slots }
    {
        let frame = self.state.frame;
        let mut packets = [0u8; OUT_BYTES];
        let ended = close(
            &mut self.state,
            self.tables,
            self.staging,
            self.slots,
            body,
            &mut packets,
        )?;
        print_closed(text, frame, ended);
        Ok(())
    }

    // One record that is no event: a `match`, since each kind's call takes other parts of these.
    #[tactic(auto, unfolding(crate::specs::Calls::kind_done))]
    pub fn carry_out(&mut self, kind: Kind, body: &[u8], text: &mut Text) -> Result<(), Cause>
        requires { LongAs (kind_number kind) (length body.now) }
        ensures number { call_number result
            ≡ (kind_done (kind_number kind) self.old.state self.old.tables.now self.old.staging.now self.old.slots.now body.now).answer.number }
        ensures state { self.new.state
            ≡ (kind_done (kind_number kind) self.old.state self.old.tables.now self.old.staging.now self.old.slots.now body.now).answer.state }
        ensures tables { self.new.tables.now
            ≡ (kind_done (kind_number kind) self.old.state self.old.tables.now self.old.staging.now self.old.slots.now body.now).tables }
        ensures staging { self.new.staging.now ≡ self.old.staging.now }
        ensures slots { self.new.slots.now
            ≡ (kind_done (kind_number kind) self.old.state self.old.tables.now self.old.staging.now self.old.slots.now body.now).slots }
    {
        match kind {
            Kind::Reading => reading(&mut self.state, body),
            Kind::Close => self.close(body, text),
            _ => self.line(body),
        }
    }

    // The same by the number of its kind; a record of no kind is carried out as a line.
    #[tactic(auto, using(stream::proofs::KindLaws::no_kind), unfolding(crate::specs::Calls::kind_done))]
    pub fn carry_out_byte(&mut self, kind: u8, body: &[u8], text: &mut Text) -> Result<(), Cause>
        requires { LongAs kind (length body.now) }
        ensures number { call_number result
            ≡ (kind_done kind self.old.state self.old.tables.now self.old.staging.now self.old.slots.now body.now).answer.number }
        ensures state { self.new.state
            ≡ (kind_done kind self.old.state self.old.tables.now self.old.staging.now self.old.slots.now body.now).answer.state }
        ensures tables { self.new.tables.now
            ≡ (kind_done kind self.old.state self.old.tables.now self.old.staging.now self.old.slots.now body.now).tables }
        ensures staging { self.new.staging.now ≡ self.old.staging.now }
        ensures slots { self.new.slots.now
            ≡ (kind_done kind self.old.state self.old.tables.now self.old.staging.now self.old.slots.now body.now).slots }
    {
        match Kind::try_from(kind) {
            Ok(kind) => self.carry_out(kind, body, text),
            Err(BadRecord) => self.line(body),
        }
    }

    // The events that stand first where bytes wait, one after the other; how many bytes they are.
    pub fn events(&mut self, waiting: &[u8], text: &mut Text) -> usize
        ensures used { result ≤ length waiting.now }
        ensures tables { self.new.tables.now ≡ self.old.tables.now }
        ensures staging { self.new.staging.now ≡ self.old.staging.now }
        ensures run { EventsRun self.old.state self.old.tables.now self.old.slots.now waiting.now result self.new.state self.new.slots.now }
        ensures all { NoEvent result (length waiting.now) waiting.now }
    {
        events(&mut self.state, self.tables, self.slots, waiting, text)
    }
}

// The same of a state and buffers, lent each by itself, as the check covers it.
fn events(
    state: &mut State,
    tables: &mut [u8],
    slots: &mut [u32],
    waiting: &[u8],
    text: &mut Text,
) -> usize
    ensures used { result ≤ length waiting.now }
    ensures tables { tables.new ≡ tables.old }
    ensures run { EventsRun state.old tables.old slots.old waiting.now result state.new slots.new }
    ensures all { NoEvent result (length waiting.now) waiting.now }
{
    run_events(state, tables, slots, waiting, text)
}

// The same, of which the tables are only read. The place in the bytes that wait is counted, since it is what is handed back: chunks
// would need it beside them.
#[tactic(auto, using(crate::proofs::EventLaws::events_none, crate::proofs::EventLaws::events_more))]
pub fn run_events(
    state: &mut State,
    tables: &[u8],
    slots: &mut [u32],
    waiting: &[u8],
    text: &mut Text,
) -> usize
    ensures used { result ≤ length waiting.now }
    ensures run { EventsRun state.old tables.now slots.old waiting.now result state.new slots.new }
    ensures all { NoEvent result (length waiting.now) waiting.now }
{
    let mut used = 0;
    while EVENT_RECORD <= waiting.len() - used {
        // The byte as it is: each event begins with it.
        if waiting[used] != Kind::Event as u8 {
            return used;
        }
        let body = &waiting[used + 1..used + EVENT_RECORD];
        print_refusal(text, event(state, tables, slots, body));
        used += EVENT_RECORD;
    }
    used
}
