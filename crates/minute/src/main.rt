// Reads tables.bin and records from standard input, and prints a line for each interval that is closed.
#![tactic(auto)]

use buffered::files::read_tables;
use buffered::input::{INPUT_BYTES, Reader};
use buffered::text::{TEXT_BYTES, Text, print};
use load::staging::STAGING_BYTES;
use minute_calls::calls::{Aboard, print_refusal};
use minute_calls::records;
use stream::kind::{BadRecord, Kind};
use stream::record::Next;
use stream::run::{Program, run};
use stream::session::Session;
use stream::start::{SLOTS, fresh};
use tables::TABLE_BYTES;

// The processor, which carries out the records.
#[derive(Drop)]
struct Minute<'a>(Aboard<'a>);

impl<'a> Program for Minute<'a> {
    ghost use Rattle.std.specs.Prelude.{◌≡◌, ◌≤◌, length, IfOk, IfSome};
    ghost use Rattle.minute_calls.specs.Record.{LiesIn};
    ghost use Rattle.minute.specs.Step.{Stepped};

    ghost lies = { LiesIn };

    fn next(session: &mut Session) -> Next
        ensures { LiesIn result session.new.input }
    {
        records::next(session)
    }

    fn step(
        &mut self,
        found: Next,
        waiting: &[u8],
        text: &mut Text,
    ) -> Result<Option<usize>, BadRecord>
        requires { LiesIn found waiting.now }
        ensures used { IfOk result (λ o. IfSome o (λ used. used ≤ length waiting.now)) }
        ensures staging { self.new.0.staging.now ≡ self.old.0.staging.now }
        ensures step { Stepped found self.old.0.state self.old.0.tables.now self.old.0.staging.now self.old.0.slots.now waiting.now
            result self.new.0.state self.new.0.tables.now self.new.0.slots.now }
    {
        let Some(record) = found? else {
            return Ok(None);
        };
        match record.kind {
            Kind::Event => Ok(Some(self.0.events(waiting, text))),
            kind => {
                let answer = self.0.carry_out(kind, record.body(waiting), text);
                print_refusal(text, answer);
                Ok(Some(record.to))
            }
        }
    }
}

// Not one with replay's: it lends a bitmap and an echo too, and an array lives where `main` makes it.
fn main(rt: HostRuntime) {
    let mut tables = [0u8; TABLE_BYTES];
    if !read_tables(&rt, &mut tables) {
        print(&rt, b"refused 1\n");
        return;
    }
    let staging = [0u8; STAGING_BYTES];
    let mut slots = [0u32; SLOTS];
    let mut buffer = [0u8; INPUT_BYTES];
    let mut text = [0u8; TEXT_BYTES];
    let mut minute = Minute(Aboard {
        state: fresh(),
        tables: &mut tables,
        staging: &staging,
        slots: &mut slots,
    });
    let mut session = Session {
        input: Reader::new(&mut buffer),
        text: Text::new(&rt, &mut text),
    };
    run(&mut minute, &mut session);
}
