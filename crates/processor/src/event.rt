// One event.
ghost use Rattle.std.specs.Prelude.{◌≡◌};
ghost use Rattle.causes.specs.Causes.{call_number};
ghost use Rattle.processor.specs.Event.{event_done};

use causes::Cause;
use sort::event::Event;
use state::State;
use take_event::{judge, take_event};

// One event: 1, 2, 3, or 0 with counts, taken and slots by the rules.
#[tactic(auto, unfolding(crate::specs::Event::event_done))]
pub fn event(state: &mut State, tables: &[u8], slots: &mut [u32], event: Event) -> Result<(), Cause>
    ensures number { call_number result
        ≡ (event_done state.old tables.now slots.old event).answer.number }
    ensures state { state.new ≡ (event_done state.old tables.now slots.old event).answer.state }
    ensures slots { slots.new ≡ (event_done state.old tables.now slots.old event).slots }
{
    let tables = judge(state, tables, slots.len(), event)?;
    take_event(state, tables, slots, event);
    Ok(())
}
