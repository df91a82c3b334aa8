// The calls on the ground, each with its answer printed.
ghost use Rattle.std.specs.Prelude.{◌≡◌, length};
ghost use Rattle.wire.specs.Bytes.{zeros};
ghost use Rattle.gatherer.specs.GatherTheorems.{given, fresh_gatherer};
ghost use Rattle.stream.specs.Kind.{kind_number};
ghost use Rattle.replay_calls.specs.Ground.{gatherer, ground_out};

use answers::listing::{print_gather, print_gathered, print_written};
use answers::packets::print_packet;
use buffered::text::Text;
use causes::Cause;
use converter::{to_first, to_second};
use gatherer::{Gathered, gather};
use packet::layout::PACKET_BYTES;
use stream::kind::Kind;

// What has come to the ground, and the table buffer that it is put into.
#[derive(Drop)]
pub struct Ground<'a> {
    pub gathered: Gathered,
    pub table: &'a mut [u8],
}

// Bytes converted to the edition that is named.
fn convert<F: FnOnce(&[u8], &mut [u8]) -> Result<(), Cause>>(
    edition: &str,
    convert: F,
    body: &[u8],
    text: &mut Text,
)
    requires { F.IsAlwaysCallable convert }
{
    let mut out = [0u8; PACKET_BYTES];
    let answer = convert(body, &mut out);
    print_written(text, edition, answer, &out);
}

impl<'a> Ground<'a> {
    // Bytes given to the gatherer.
    fn gather(&mut self, body: &[u8], text: &mut Text)
        ensures { gatherer self.new.gathered self.new.table.now ≡ given (gatherer self.old.gathered self.old.table.now) body.now }
    {
        let answer = gather(&mut self.gathered, body, self.table);
        print_gather(text, answer, self.gathered.missing());
    }

    // What was gathered is printed, and a fresh gatherer starts with a table of zeros.
    fn hand_over(&mut self, text: &mut Text)
        ensures { gatherer self.new.gathered self.new.table.now ≡ fresh_gatherer (zeros (length self.old.table.now)) }
    {
        print_gathered(text, self.gathered.missing(), self.table);
        self.table.fill(0);
        self.gathered = Gathered::none();
    }

    // One record, of which those of the calls aboard, and what is read or converted, change nothing that is gathered.
    // A `match`, since of the calls two work on what is gathered and three on the body alone.
    #[tactic(auto, unfolding(crate::specs::Ground::ground_out))]
    pub fn carry_out(&mut self, kind: Kind, body: &[u8], text: &mut Text)
        ensures { gatherer self.new.gathered self.new.table.now
            ≡ ground_out (kind_number kind) (gatherer self.old.gathered self.old.table.now) body.now }
    {
        match kind {
            Kind::Packet => print_packet(text, body),
            Kind::Gather => self.gather(body, text),
            Kind::Gathered => self.hand_over(text),
            Kind::ToSecond => convert("second", to_second, body, text),
            Kind::ToFirst => convert("first", to_first, body, text),
            _ => {}
        }
    }

    // The same by the number of its kind; a record of no kind changes nothing.
    #[tactic(auto, using(stream::proofs::KindLaws::no_kind), unfolding(crate::specs::Ground::ground_out))]
    pub fn carry_out_byte(&mut self, kind: u8, body: &[u8], text: &mut Text)
        ensures { gatherer self.new.gathered self.new.table.now
            ≡ ground_out kind (gatherer self.old.gathered self.old.table.now) body.now }
    {
        if let Ok(kind) = Kind::try_from(kind) {
            self.carry_out(kind, body, text);
        }
    }
}
