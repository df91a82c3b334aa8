// A program's run over its input.
ghost use Rattle.std.specs.Prelude.{List, ℕ, ◌≤◌, length, Option, Result, IfOk, IfSome};
ghost use Rattle.stream.specs.declared.kind.BadRecord.{BadRecord};
ghost use Rattle.stream.specs.declared.record.Record.{Record};

use crate::kind::BadRecord;
use crate::record::{Next, Record};
use crate::session::Session;
use buffered::text::Text;

// A program that carries out one record after the other.
pub trait Program {
    // What the program's records keep to: of what was found, and the bytes that wait then.
    ghost lies: { Result (Option Record) BadRecord → List ℕ → Type 0 };

    // The record that stands next in the input.
    fn next(session: &mut Session) -> Next
        ensures { lies result session.new.input };

    // What was found is carried out, and printed. How many bytes of those that wait are used then; none at the end of the
    // input.
    fn step(
        &mut self,
        found: Next,
        waiting: &[u8],
        text: &mut Text,
    ) -> Result<Option<usize>, BadRecord>
        requires { lies found waiting.now }
        ensures { IfOk result (λ o. IfSome o (λ used. used ≤ length waiting.now)) };
}

// Carries out record after record until the input ends, a record is bad, or a read or a write fails. Nothing says that the
// input ends, so the turns are counted, up to a number that no run uses up.
pub fn run<P: Program>(program: &mut P, session: &mut Session) {
    for _ in 0..u64::MAX {
        let found = P::next(session);
        match program.step(found, session.input.waiting(), &mut session.text) {
            Ok(Some(used)) => session.input.skip(used),
            Ok(None) => break,
            Err(BadRecord) => {
                session.text.bad_record();
                break;
            }
        }
        if session.text.failed() {
            break;
        }
    }
    session.text.flush();
}
