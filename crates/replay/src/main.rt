// Reads tables.bin and a list of calls from standard input, carries them out and prints every answer.
#![tactic(auto)]

use buffered::files::read_tables;
use buffered::input::{INPUT_BYTES, Reader};
use buffered::text::{TEXT_BYTES, Text, print};
use echo::ECHO_BYTES;
use gatherer::Gathered;
use load::bitmap::BITMAP_BYTES;
use load::staging::STAGING_BYTES;
use replay_calls::calls::Aboard;
use replay_calls::ground_calls::Ground;
use replay_calls::records;
use stream::kind::BadRecord;
use stream::record::Next;
use stream::run::{Program, run};
use stream::session::Session;
use stream::start::{SLOTS, fresh};
use tables::TABLE_BYTES;

// What carries out the records, aboard and on the ground.
#[derive(Drop)]
struct Replay<'a> {
    aboard: Aboard<'a>,
    ground: Ground<'a>,
}

impl<'a> Program for Replay<'a> {
    ghost use Rattle.std.specs.Prelude.{◌≡◌, ◌≤◌, length, IfOk, IfSome};
    ghost use Rattle.replay_calls.specs.Ground.{gatherer};
    ghost use Rattle.replay_calls.specs.Record.{LiesIn};
    ghost use Rattle.replay.specs.Step.{Stepped, ground_stepped};

    ghost lies = { LiesIn };

    fn next(session: &mut Session) -> Next
        ensures { LiesIn result session.new.input }
    {
        records::next(session)
    }

    fn step(
        &mut self,
        found: Next,
        waiting: &[u8],
        text: &mut Text,
    ) -> Result<Option<usize>, BadRecord>
        requires { LiesIn found waiting.now }
        ensures used { IfOk result (λ o. IfSome o (λ used. used ≤ length waiting.now)) }
        ensures step { Stepped found self.old.aboard.state self.old.aboard.tables.now self.old.aboard.staging.now
            self.old.aboard.bitmap.now self.old.aboard.slots.now self.old.aboard.echo.now waiting.now
            result self.new.aboard.state self.new.aboard.tables.now self.new.aboard.staging.now
            self.new.aboard.bitmap.now self.new.aboard.slots.now self.new.aboard.echo.now }
        ensures ground { gatherer self.new.ground.gathered self.new.ground.table.now
            ≡ ground_stepped found (gatherer self.old.ground.gathered self.old.ground.table.now) waiting.now
            (length self.old.aboard.slots.now) }
    {
        let Some(record) = found? else {
            return Ok(None);
        };
        let body = record.body(waiting);
        if !records::is_right(record.kind, body, self.aboard.slots.len()) {
            return Err(BadRecord);
        }
        self.aboard.carry_out(record.kind, body, text);
        self.ground.carry_out(record.kind, body, text);
        Ok(Some(record.to))
    }
}

fn main(rt: HostRuntime) {
    let mut tables = [0u8; TABLE_BYTES];
    if !read_tables(&rt, &mut tables) {
        print(&rt, b"refused 1\n");
        return;
    }
    let mut staging = [0u8; STAGING_BYTES];
    let mut bitmap = [0u8; BITMAP_BYTES];
    let mut slots = [0u32; SLOTS];
    let mut echo = [0u8; ECHO_BYTES];
    let mut table = [0u8; TABLE_BYTES];
    let mut buffer = [0u8; INPUT_BYTES];
    let mut text = [0u8; TEXT_BYTES];
    let mut replay = Replay {
        aboard: Aboard {
            state: fresh(),
            tables: &mut tables,
            staging: &mut staging,
            bitmap: &mut bitmap,
            slots: &mut slots,
            echo: &mut echo,
        },
        ground: Ground {
            gathered: Gathered::none(),
            table: &mut table,
        },
    };
    let mut session = Session {
        input: Reader::new(&mut buffer),
        text: Text::new(&rt, &mut text),
    };
    run(&mut replay, &mut session);
}
