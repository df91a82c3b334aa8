// One second reading: whether it is taken, and the state with its counts.
#![tactic(auto)]

ghost use Rattle.std.specs.Prelude.{◌≡◌, true, ◌<◌};
ghost use Rattle.causes.specs.Causes.{call_number};
ghost use Rattle.wire.specs.Lists.{EachBelow};
ghost use Rattle.state.specs.Interval.{most_readings, with_reading};
ghost use Rattle.state.specs.Limits.{within_limits};
ghost use Rattle.state.specs.State.{with_interval};
ghost use Rattle.take_reading.specs.Reading.{reading_number, added_totals};

use boxes::TOTALS;
use causes::{Cause, check};
use state::State;
use state::interval::MOST_READINGS;

// Whether the reading is taken.
#[tactic(auto, unfolding(crate::specs::Reading::reading_number))]
pub fn judge(state: &State) -> Result<(), Cause>
    ensures { call_number result ≡ reading_number state.now }
{
    check(state::limits::within_limits(state), Cause::BufferOrState)?;
    check(state.interval.readings < MOST_READINGS, Cause::IntervalFull)
}

// Each count added to its total: a reading has as many counts as there are totals. By place: by
// `zip` the proof did not close.
fn add(totals: &mut [u32; TOTALS], counts: [u16; TOTALS])
    requires { EachBelow 4000000 totals.old }
    ensures { totals.new ≡ added_totals totals.old counts }
{
    for (i, total) in totals.iter_mut().enumerate() {
        *total += u32::from(counts[i]);
    }
}

// One reading more in the state. Any state may be lent: its limits are judged before, and are no invariant.
pub fn take_reading(state: &mut State, counts: [u16; TOTALS])
    requires { (within_limits state.old ≡ true) × (state.old.interval.readings < most_readings) }
    ensures { state.new
        ≡ with_interval state.old (with_reading state.old.interval (added_totals state.old.interval.totals counts)) }
{
    add(&mut state.interval.totals, counts);
    state.interval.readings += 1;
}
