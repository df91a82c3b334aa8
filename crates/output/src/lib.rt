// The packets of an interval that ends, each written into its own part of the output.
#![tactic(auto)]

ghost use Rattle.std.specs.Prelude.{◌≡◌, true, ◌+◌, ◌*◌, ◌≤◌, ◌<◌, length};
ghost use Rattle.wire.specs.Bytes.{put};
ghost use Rattle.tables.specs.Tables.{table_bytes};
ghost use Rattle.packet.specs.Packet.{packet_bytes};
ghost use Rattle.packet.specs.TableSum.{table_sum};
ghost use Rattle.state.specs.Limits.{within_limits};
ghost use Rattle.output.specs.Ended.{summary_of, ended_in};
ghost use Rattle.output.specs.Output.{whole_span, span_bytes, samples_of, written};

use capacity::Numbers;
use counts::Counts;
use packet::layout::{PACKET_BYTES, RECORDS};
use packet::stamp::stamp_of;
use packet::write::{BeaconBody, RateBody, write_beacon, write_rate};
use rate_code::editions::Mark;
use state::State;

// What a close returns of the interval that it ended.
#[derive(Clone, Copy)]
pub struct Summary {
    pub taken: u32,
    pub counts: Counts,
    pub filled: usize,
    // Of the events the eligible ones; of these those whose record replaced another, and those whose record went into no slot.
    pub eligible: u32,
    pub replaced: u32,
    pub dropped: u32,
}

// The sample packets that are written: the first one's p, and how many.
#[derive(Clone, Copy)]
pub struct Span {
    pub first: u8,
    pub many: u8,
}

// A packet for each 64 slots, from p 0 on.
pub fn whole_span(n: Numbers) -> Span
    ensures { result ≡ whole_span n }
{
    Span {
        first: 0,
        many: n.samples,
    }
}

// The length of the output: the sample packets between a rate packet and a beacon packet.
pub fn span_bytes(s: Span) -> usize
    ensures { result ≡ span_bytes s }
{
    PACKET_BYTES * (usize::from(s.many) + 2)
}

// The sample packets, the first of them into the second part. By a number: parts, slots and p by elements are three iterators,
// which zipped would stop at the shortest without a word.
fn write_samples(out: &mut [u8], frame: u16, time: u32, slots: &[u32], s: Span)
    requires { (length out.old ≡ span_bytes s) × (64 * s.many ≤ length slots.now) × (s.first + s.many < 256) }
    ensures { out.new
        ≡ put out.old packet_bytes (samples_of frame time slots.now s.first s.many) }
{
    for i in 0..s.many {
        let k = usize::from(i);
        let a = PACKET_BYTES * (k + 1);
        let e = PACKET_BYTES * (k + 2);
        let b = RECORDS * k;
        let f = b + RECORDS;
        let stamp = stamp_of(frame, time, s.first + i);
        packet::write::write_samples(&mut out[a..e], stamp, &slots[b..f]);
    }
}

// The sum of the table words. Apart, since no array is named where sample packets are written.
fn sum_of(tables: &[u8]) -> u32
    requires { length tables.now ≡ table_bytes }
    ensures { (result ≡ table_sum tables.now) × (result < 16777216) }
{
    let Some(tables) = tables.as_array() else {
        unreachable!()
    };
    packet::table_sum::table_sum(tables)
}

// The packets of the state's interval, which ends at this time with these tables and slots; `summary` is what the close returns of
// it, and the counts are lent where they lie. Any state may be lent, so that its limits are judged before and are no invariant; so it
// is in the other crates of a call.
pub fn write_packets(
    s: &State,
    time: u32,
    tables: &[u8],
    slots: &[u32],
    summary: &Summary,
    span: Span,
    out: &mut [u8],
)
    requires s_value { (within_limits s.now ≡ true) × (length tables.now ≡ table_bytes) × (length out.old ≡ span_bytes span) }
    requires summary_value { summary.now ≡ summary_of s.now slots.now }
    requires many_in_bounds { (64 * span.many ≤ length slots.now) × (span.first + span.many < 256) }
    ensures { out.new ≡ written (ended_in s.now time tables.now slots.now) span }
{
    let sum = sum_of(tables);
    // `as`: by `number` the proof did not close.
    let stamp = stamp_of(s.frame, time, Mark::Second as u8);
    let body = RateBody {
        totals: &s.interval.totals,
        boxes: &s.interval.counts.boxes,
        settings: s.settings,
        sum,
    };
    write_rate(&mut out[0..PACKET_BYTES], stamp, body);
    write_samples(out, s.frame, time, slots, span);
    let e = span_bytes(span);
    let a = e - PACKET_BYTES;
    let body = BeaconBody {
        beacons: &s.interval.counts.beacons,
        eligible: summary.eligible,
        replaced: summary.replaced,
        dropped: summary.dropped,
    };
    write_beacon(&mut out[a..e], stamp, body);
}
