// The calls aboard, each with its answer printed.
ghost use Rattle.std.specs.Prelude.{true, ◌≡◌, ◌*◌, length};
ghost use Rattle.wire.specs.Bytes.{zeros, at32};
ghost use Rattle.image.specs.Layout.{image_bytes};
ghost use Rattle.image.specs.Image.{numbers_at, state_of, image_of};
ghost use Rattle.processor.specs.Close.{close_done};
ghost use Rattle.processor.specs.Line.{line_done};
ghost use Rattle.processor.specs.Package.{package_done};
ghost use Rattle.processor.specs.Reading.{reading_done};
ghost use Rattle.stream.specs.Kind.{kind_number};
ghost use Rattle.stream.specs.Record.{counts_in, record_done};
ghost use Rattle.stream.specs.Start.{out_bytes};
ghost use Rattle.replay_calls.specs.Calls.{kind_done, Left};
ghost use Rattle.replay_calls.specs.Record.{Long, body_right};

use answers::calls::{
    print_line, print_number, print_package, print_shown, print_slots, print_state,
};
use answers::close::print_close;
use answers::listing::print_written;
use buffered::text::Text;
use image::layout::{IMAGE_BYTES, Image};
use packet::layout::PACKET_BYTES;
use state::State;
use stream::kind::Kind;
use stream::start::OUT_BYTES;
use wire::number::BigEndian;

// What the calls work on: the state, and the buffers that they are lent.
#[derive(Drop)]
pub struct Aboard<'a> {
    pub state: State,
    pub tables: &'a mut [u8],
    pub staging: &'a mut [u8],
    pub bitmap: &'a mut [u8],
    pub slots: &'a mut [u32],
    pub echo: &'a mut [u8],
}

// Each call takes as `&mut` what it only reads too: loans of both kinds behind one `&mut self` are not covered by the check. A record's
// body and the text stay two parameters: one is read, the other written, and neither is of the other.

fn event(state: &mut State, tables: &mut [u8], slots: &mut [u32], body: &[u8], text: &mut Text)
    requires { length body.now ≡ 7 }
    ensures state { state.new ≡ (record_done state.old tables.old slots.old body.now).answer.state }
    ensures slots { slots.new ≡ (record_done state.old tables.old slots.old body.now).slots }
    ensures tables { tables.new ≡ tables.old }
{
    let answer = stream::record::event(state, tables, slots, body);
    print_number(text, "event", &answer);
}

fn reading(state: &mut State, body: &[u8], text: &mut Text)
    requires { length body.now ≡ 16 }
    ensures { state.new ≡ (reading_done state.old (counts_in body.now)).state }
{
    let answer = stream::record::reading(state, body);
    print_number(text, "reading", &answer);
}

fn line(
    state: &mut State,
    staging: &mut [u8],
    bitmap: &mut [u8],
    echo: &mut [u8],
    body: &[u8],
    text: &mut Text,
)
    ensures state { state.new
        ≡ (line_done state.old body.now staging.old bitmap.old echo.old).answer.state }
    ensures echo { echo.new
        ≡ (line_done state.old body.now staging.old bitmap.old echo.old).echo }
    ensures staging { staging.new ≡ staging.old }
    ensures bitmap { bitmap.new ≡ bitmap.old }
{
    let answer = processor::line::line(state, body, staging, bitmap, echo);
    print_line(text, answer, echo);
}

fn package(
    state: &mut State,
    staging: &mut [u8],
    bitmap: &mut [u8],
    echo: &mut [u8],
    body: &[u8],
    text: &mut Text,
)
    ensures state { state.new
        ≡ (package_done state.old body.now staging.old bitmap.old echo.old).answer.state }
    ensures staging { staging.new
        ≡ (package_done state.old body.now staging.old bitmap.old echo.old).staging }
    ensures bitmap { bitmap.new
        ≡ (package_done state.old body.now staging.old bitmap.old echo.old).bitmap }
    ensures echo { echo.new
        ≡ (package_done state.old body.now staging.old bitmap.old echo.old).echo }
{
    let answer = processor::load_package::package(state, body, staging, bitmap, echo);
    print_package(text, answer, echo);
}

// The packets are printed only where the close has filled them whole.
fn close(
    state: &mut State,
    tables: &mut [u8],
    staging: &mut [u8],
    slots: &mut [u32],
    body: &[u8],
    text: &mut Text,
)
    requires { length body.now ≡ 4 }
    ensures state { state.new
        ≡ (close_done state.old (at32 body.now 0) tables.old staging.old slots.old
        (zeros out_bytes)).answer.state }
    ensures tables { tables.new
        ≡ (close_done state.old (at32 body.now 0) tables.old staging.old slots.old
        (zeros out_bytes)).tables }
    ensures slots { slots.new
        ≡ (close_done state.old (at32 body.now 0) tables.old staging.old slots.old
        (zeros out_bytes)).slots }
    ensures staging { staging.new ≡ staging.old }
{
    let frame = state.frame;
    let mut packets = [0u8; OUT_BYTES];
    let ended = stream::record::close(state, tables, staging, slots, body, &mut packets);
    print_close(text, frame, ended, &packets);
}

// One packet of the tables, which changes nothing aboard.
fn listing(state: &mut State, tables: &mut [u8], body: &[u8], text: &mut Text)
    requires { length body.now ≡ 6 }
    ensures state { state.new ≡ state.old }
    ensures tables { tables.new ≡ tables.old }
{
    let i = u16::read(body, 0);
    let time = u32::read(body, 2);
    let mut out = [0u8; PACKET_BYTES];
    let answer = processor::listing::listing(state, i, time, tables, &mut out);
    print_written(text, "listing", answer, &out);
}

// A state in place of the one there is.
fn hand_in(body: &[u8], text: &mut Text) -> State
    requires { length body.now ≡ image_bytes }
    ensures { result ≡ state_of body.now }
{
    print_state(text);
    let Ok(image) = <&Image>::try_from(body) else {
        unreachable!()
    };
    image::read::decode(image)
}

// The bytes that are shown of a state.
fn shown(state: State) -> [u8; IMAGE_BYTES]
    ensures { result ≡ image_of state }
{
    let mut bytes = [0u8; IMAGE_BYTES];
    image::write::encode(&mut bytes, state);
    bytes
}

// All slots in place of those there are.
fn hand_in_slots(slots: &mut [u32], body: &[u8], text: &mut Text)
    requires { length body.now ≡ 4 * length slots.old }
    ensures { slots.new ≡ numbers_at body.now 0 (length slots.old) }
{
    image::read::words_at(body, 0, slots);
    print_slots(text);
}

impl<'a> Aboard<'a> {
    // One record, of which those of the ground change nothing aboard. A `match`, since each kind's call takes other parts of
    // these.
    #[tactic(auto, unfolding(crate::specs::Calls::kind_done, crate::specs::Record::body_right))]
    pub fn carry_out(&mut self, kind: Kind, body: &[u8], text: &mut Text)
        requires long { Long (kind_number kind) (length body.now) }
        requires slots_value { body_right (kind_number kind) body.now (length self.old.slots.now) ≡ true }
        ensures { Left
            (kind_done (kind_number kind) self.old.state self.old.tables.now self.old.staging.now self.old.bitmap.now
            self.old.slots.now self.old.echo.now body.now)
            self.new.state self.new.tables.now self.new.staging.now self.new.bitmap.now self.new.slots.now self.new.echo.now }
    {
        match kind {
            Kind::Event => event(&mut self.state, self.tables, self.slots, body, text),
            Kind::Reading => reading(&mut self.state, body, text),
            Kind::Line => line(
                &mut self.state,
                self.staging,
                self.bitmap,
                self.echo,
                body,
                text,
            ),
            Kind::Close => close(
                &mut self.state,
                self.tables,
                self.staging,
                self.slots,
                body,
                text,
            ),
            Kind::Package => package(
                &mut self.state,
                self.staging,
                self.bitmap,
                self.echo,
                body,
                text,
            ),
            Kind::Listing => listing(&mut self.state, self.tables, body, text),
            Kind::State => self.state = hand_in(body, text),
            Kind::Show => print_shown(text, &shown(self.state)),
            Kind::Slots => hand_in_slots(self.slots, body, text),
            _ => {}
        }
    }

    // The same by the number of its kind; a record of no kind changes nothing.
    pub fn carry_out_byte(&mut self, kind: u8, body: &[u8], text: &mut Text)
        requires long { Long kind (length body.now) }
        requires slots_value { body_right kind body.now (length self.old.slots.now) ≡ true }
        ensures { Left
            (kind_done kind self.old.state self.old.tables.now self.old.staging.now self.old.bitmap.now
            self.old.slots.now self.old.echo.now body.now)
            self.new.state self.new.tables.now self.new.staging.now self.new.bitmap.now self.new.slots.now self.new.echo.now }
    {
        if let Ok(kind) = Kind::try_from(kind) {
            self.carry_out(kind, body, text);
        }
    }
}
