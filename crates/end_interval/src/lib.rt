// The end of an interval, its packets apart: whether it can be ended, what is returned of it, and what begins after it.
#![tactic(auto)]

ghost use Rattle.std.specs.Prelude.{◌≡◌, true, length};
ghost use Rattle.wire.specs.Bytes.{zeros};
ghost use Rattle.state.specs.Limits.{within_limits};
ghost use Rattle.output.specs.Ended.{summary_of};
ghost use Rattle.end_interval.specs.End.{endable, state_ended, tables_ended};

use command_list::CommandList;
use load::staging::{STAGING_BYTES, Staging};
use output::Summary;
use state::State;
use tables::TABLE_BYTES;

// Whether the state is within its limits, what is lent beside the output has its length, and each slot is zero or of a box.
pub fn endable(state: &State, tables: usize, staging: usize, slots: &[u32]) -> bool
    ensures { result ≡ endable state.now tables staging slots.now }
{
    let lent = (tables == TABLE_BYTES)
        & (staging == STAGING_BYTES)
        & (slots.len() == capacity::numbers_of(state.capacity).slots)
        & samples::at_close::all_good(slots);
    state::limits::within_limits(state) & lent
}

// What is returned of the interval.
pub fn summary_of(state: &State, slots: &[u32]) -> Summary
    requires { within_limits state.now ≡ true }
    ensures { result ≡ summary_of state.now slots.now }
{
    let filled = samples::at_close::filled(slots);
    let eligible = state.interval.samples.eligible;
    let replaced = state.interval.samples.slots.replaced;
    let dropped = (eligible as usize)
        .saturating_sub(filled)
        .saturating_sub(replaced);
    Summary {
        taken: state.interval.taken,
        counts: state.interval.counts,
        filled,
        eligible,
        replaced: replaced as u32,
        dropped: dropped as u32,
    }
}

// The next interval begins: the waiting commands have run on the settings, and nothing is taken yet.
#[tactic(auto, unfolding(crate::specs::End::state_ended))]
fn begin_next(state: &mut State)
    ensures { state.new ≡ state_ended state.old }
{
    state.settings = state.commands.run_settings(state.settings);
    state.staging = state.commands.run_addresses(state.staging);
    state.commands = CommandList::fresh();
    state.interval = state::interval::fresh();
    state.frame = state.frame.wrapping_add(1);
}

// The waiting commands run, on settings and tables; counts and slots become zero.
pub fn end(state: &mut State, tables: &mut [u8], staging: &[u8], slots: &mut [u32])
    requires { endable state.old (length tables.old) (length staging.now) slots.old ≡ true }
    ensures state { state.new ≡ state_ended state.old }
    ensures tables { tables.new ≡ tables_ended state.old tables.old staging.now }
    ensures slots { slots.new ≡ zeros (length slots.old) }
{
    let Some(tables) = tables.as_mut_array() else {
        unreachable!()
    };
    let Ok(staging) = <&Staging>::try_from(staging) else {
        unreachable!()
    };
    let ranges = state::limits::ranges_of(state);
    state.commands.run_loads(tables, staging, ranges);
    samples::at_close::clear(slots);
    begin_next(state);
}
