// The end of an interval: judged, packets, ended.
ghost use Rattle.std.specs.Prelude.{◌≡◌, ◌&&◌, IfOk};
ghost use Rattle.causes.specs.Causes.{call_number};
ghost use Rattle.end_interval.specs.End.{endable};
ghost use Rattle.processor.specs.Close.{close_span, out_right, close_done};

use causes::{Cause, check};
use output::{Span, Summary};
use state::State;

// The sample packets that a close of this state writes: one for each 64 slots.
fn close_span(state: &State) -> Span
    ensures { result ≡ close_span state.now.capacity }
{
    output::whole_span(capacity::numbers_of(state.capacity))
}

// Whether the interval is ended, by the lengths of tables, staging and output.
fn is_right(state: &State, tables: usize, staging: usize, slots: &[u32], out: usize) -> bool
    ensures { result ≡ endable state.now tables staging slots.now && out_right state.now.capacity out }
{
    let right = out == output::span_bytes(close_span(state));
    end_interval::endable(state, tables, staging, slots) & right
}

// The end of the interval: 1, or its counts, with the packets written, the waiting commands run, and counts and slots zero.
#[tactic(auto, unfolding(crate::specs::Close::close_done))]
pub fn close(
    state: &mut State,
    time: u32,
    tables: &mut [u8],
    staging: &[u8],
    slots: &mut [u32],
    out: &mut [u8],
) -> Result<Summary, Cause>
    ensures number { call_number result
        ≡ (close_done state.old time tables.old staging.now slots.old out.old).answer.number }
    ensures state { state.new
        ≡ (close_done state.old time tables.old staging.now slots.old out.old).answer.state }
    ensures summary { IfOk result (λ summary. summary
        ≡ (close_done state.old time tables.old staging.now slots.old out.old).answer.summary) }
    ensures tables { tables.new
        ≡ (close_done state.old time tables.old staging.now slots.old out.old).tables }
    ensures slots { slots.new
        ≡ (close_done state.old time tables.old staging.now slots.old out.old).slots }
    ensures out { out.new
        ≡ (close_done state.old time tables.old staging.now slots.old out.old).out }
{
    check(
        is_right(state, tables.len(), staging.len(), slots, out.len()),
        Cause::BufferOrState,
    )?;
    let summary = end_interval::summary_of(state, slots);
    let span = close_span(state);
    output::write_packets(state, time, tables, slots, &summary, span, out);
    end_interval::end(state, tables, staging, slots);
    Ok(summary)
}
