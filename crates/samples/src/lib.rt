// Which events are eligible as samples, and their records; the slots that take them are in the modules.
#![tactic(auto)]

pub mod at_close;
pub mod selection;
pub mod slots;

ghost use Rattle.std.specs.Prelude.{◌≡◌};
ghost use Rattle.sort.specs.Boxes.{OutcomeNames};
ghost use Rattle.samples.specs.Samples.{box_of, priority_of, eligible, event_record};

use boxes::{DISCARDED_BOX, OUT_OF_BOUNDS_BOX};
use sample_record::Sample;
use sort::ranged::Ranged;
use sort::sorting::Outcome;

// The first box whose events are eligible without junk.
const FIRST_ELIGIBLE_BOX: u8 = 8;

// The box of an outcome. A function and no method: `Outcome` stands in another crate.
pub fn box_of(o: Outcome) -> u8
    ensures { result ≡ box_of o }
{
    match o {
        Outcome::Discarded => DISCARDED_BOX,
        Outcome::OutOfBounds(_) => OUT_OF_BOUNDS_BOX,
        Outcome::InCell(_, cell) => cell.ratebox,
    }
}

// The priority of an outcome.
pub fn priority_of(o: Outcome) -> bool
    ensures { result ≡ priority_of o }
{
    match o {
        Outcome::Discarded | Outcome::OutOfBounds(_) => false,
        Outcome::InCell(_, cell) => cell.priority,
    }
}

// Whether an event can be a sample.
pub fn eligible(junk: bool, o: Outcome) -> bool
    ensures { result ≡ eligible junk o }
{
    let b = box_of(o);
    (FIRST_ELIGIBLE_BOX <= b) | (junk & (OUT_OF_BOUNDS_BOX <= b))
}

// The record of an event. That the outcome names boxes is no invariant of `Cell`: the definitions make cells of any bytes.
#[tactic(auto, unfolding(crate::specs::Samples::event_record))]
pub fn record_of(e: Ranged, o: Outcome) -> u32
    requires { OutcomeNames o }
    ensures { result ≡ event_record e o }
{
    let event = e.event;
    sample_record::pack(Sample {
        t: event.t,
        channel: event.channel(),
        flg0: event.flg0,
        flg1: event.flg1,
        gain: event.gain(),
        error: event.error,
        ratebox: box_of(o),
        priority: priority_of(o),
    })
}
