// One event: whether it is taken, and what it makes of the state and the slots.
#![tactic(auto)]

ghost use Rattle.std.specs.Prelude.{◌≡◌, true, ◌<◌, length, IfOk};
ghost use Rattle.causes.specs.Causes.{call_number};
ghost use Rattle.capacity.specs.Capacity.{numbers_of};
ghost use Rattle.tables.specs.Tables.{table_bytes};
ghost use Rattle.sort.specs.Event.{in_range};
ghost use Rattle.sort.specs.Sorting.{outcome_of};
ghost use Rattle.samples.specs.Selection.{slots_taken};
ghost use Rattle.state.specs.Interval.{most_events};
ghost use Rattle.state.specs.Limits.{within_limits};
ghost use Rattle.state.specs.State.{with_interval};
ghost use Rattle.take_event.specs.Event.{event_number, interval_taken};

use causes::{Cause, call_number, check};
use sort::event::Event;
use sort::ranged::Ranged;
use state::State;
use state::interval::MOST_EVENTS;
use state::limits::within_limits;
use tables::{TABLE_BYTES, Tables};

// Whether the event is taken where the tables have their length, by the number of slots.
#[tactic(auto, unfolding(crate::specs::Event::event_number))]
fn judge_event(state: &State, slots: usize, event: Event) -> Result<(), Cause>
    ensures { call_number result ≡ event_number state.now table_bytes slots event }
{
    let numbers = capacity::numbers_of(state.capacity);
    let lent = slots == numbers.slots;
    check(within_limits(state) & lent, Cause::BufferOrState)?;
    check(event.in_range(), Cause::FieldRange)?;
    check(state.interval.taken < MOST_EVENTS, Cause::IntervalFull)
}

// The tables, of their length, where the event is taken; by the number of slots.
#[tactic(auto, using(crate::proofs::EventLaws::other_tables))]
pub fn judge<'a>(
    state: &State,
    tables: &'a [u8],
    slots: usize,
    event: Event,
) -> Result<&'a Tables, Cause>
    ensures number { call_number result ≡ event_number state.now (length tables.now) slots event }
    ensures tables { IfOk result (λ t. t.now ≡ tables.now) }
{
    let Ok(tables) = <&Tables>::try_from(tables) else {
        return Err(Cause::BufferOrState);
    };
    judge_event(state, slots, event)?;
    Ok(tables)
}

// The call's number, from the lengths of the tables and the slots.
#[tactic(auto, using(crate::proofs::EventLaws::other_tables))]
pub fn event_number(state: &State, tables: usize, slots: usize, event: Event) -> u8
    ensures { result ≡ event_number state.now tables slots event }
{
    if tables != TABLE_BYTES {
        return Cause::BufferOrState.number();
    }
    call_number(&judge_event(state, slots, event))
}

// One event more in the state and the slots. Any state may be lent: its limits are judged before, and are no invariant.
pub fn take_event(state: &mut State, tables: &Tables, slots: &mut [u32], event: Event)
    requires slots_len { length slots.old ≡ (numbers_of state.old.capacity).slots }
    requires state_value { within_limits state.old ≡ true }
    requires event_value { (in_range event ≡ true) × (state.old.interval.taken < most_events) }
    ensures state { state.new
        ≡ with_interval state.old (interval_taken (numbers_of state.old.capacity).slots state.old.interval state.old.settings
        (outcome_of state.old.settings tables.now event)) }
    ensures slots { slots.new
        ≡ slots_taken (numbers_of state.old.capacity).slots state.old.interval.samples state.old.settings slots.old event
        (outcome_of state.old.settings tables.now event) }
{
    let event = Ranged { event };
    let outcome = sort::sorting::outcome_of(state.settings, tables, event);
    state.interval.taken += 1;
    state.interval.counts.count(outcome);
    state
        .interval
        .samples
        .select(state.settings, slots, event, outcome);
}
