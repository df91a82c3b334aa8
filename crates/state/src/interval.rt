// The interval: what its events and its second readings have come to.
ghost use Rattle.std.specs.Prelude.{◌≡◌, ◌&&◌};
ghost use Rattle.wire.specs.Lists.{all, at_most};
ghost use Rattle.state.specs.Interval.{fresh_interval, counts_within, samples_within, readings_within, interval_within};

use boxes::{BEACONS, BOXES, TOTALS};
use counts::Counts;
use samples::selection::SampleUse;
use samples::slots::SlotUse;

#[derive(Clone, Copy)]
pub struct Interval {
    // Events taken.
    pub taken: u32,
    pub counts: Counts,
    // What they have come to as samples.
    pub samples: SampleUse,
    // Second readings, and their sums.
    pub readings: u32,
    pub totals: [u32; TOTALS],
}

pub const MOST_EVENTS: u32 = 1_000_000;

pub const MOST_READINGS: u32 = 60;

// An interval that begins.
pub fn fresh() -> Interval
    ensures { result ≡ fresh_interval }
{
    Interval {
        taken: 0,
        counts: Counts::default(),
        samples: SampleUse {
            slots: SlotUse {
                used: 0,
                replaced: 0,
            },
            eligible: 0,
        },
        readings: 0,
        totals: [0; TOTALS],
    }
}

// Whether each number is at most the limit. No `all`: it leaves early, and the scan would not be made of vectors.
fn all_at_most(numbers: &[u32], limit: u32) -> bool
    ensures { result ≡ all (at_most limit) numbers.now }
{
    let mut ok = true;
    for number in numbers {
        ok = ok & (*number <= limit);
    }
    ok
}

// Whether taken is within its limit, and every box and beacon count at most taken, of counts that lie in no interval.
pub fn counts_within<'a>(taken: u32, boxes: &'a [u32; BOXES], beacons: &'a [u32; BEACONS]) -> bool
    ensures { result ≡ counts_within taken (record { boxes = boxes.now; beacons = beacons.now }) }
{
    (taken <= MOST_EVENTS) & all_at_most(boxes, taken) & all_at_most(beacons, taken)
}

// Whether the rest of such an interval is within its limits: eligible events, used and replaced slots, of which there are so many,
// readings and their totals.
pub fn rest_within(
    slots: usize,
    taken: u32,
    u: SampleUse,
    readings: u32,
    totals: &[u32; TOTALS],
) -> bool
    ensures { result ≡ (samples_within slots taken u && readings_within readings totals.now) }
{
    let parts = Interval {
        taken,
        counts: Counts::default(),
        samples: u,
        readings,
        totals: *totals,
    };
    parts.samples_within(slots) & parts.readings_within()
}

impl Interval {
    // Whether the interval is within its limits where there are so many slots.
    #[tactic(auto, unfolding(crate::specs::Interval::interval_within))]
    pub fn within(&self, slots: usize) -> bool
        ensures { result ≡ interval_within slots self.now }
    {
        self.counts_within() & self.samples_within(slots) & self.readings_within()
    }

    // Taken, and every box and beacon count at most taken.
    fn counts_within(&self) -> bool
        ensures { result ≡ counts_within self.now.taken self.now.counts }
    {
        (self.taken <= MOST_EVENTS)
            & all_at_most(&self.counts.boxes, self.taken)
            & all_at_most(&self.counts.beacons, self.taken)
    }

    // Eligible events, used and replaced slots. The first by a branch: joined by `&`, this test, of the same form as those of the
    // beacons, would keep their scan from being made of vectors (52 instructions).
    fn samples_within(&self, slots: usize) -> bool
        ensures { result ≡ samples_within slots self.now.taken self.now.samples }
    {
        if self.taken < self.samples.eligible {
            return false;
        }
        let most = self.taken as usize;
        (self.samples.slots.used <= most)
            & (self.samples.slots.used <= slots)
            & (self.samples.slots.replaced <= most)
    }

    // Readings and their totals.
    fn readings_within(&self) -> bool
        ensures { result ≡ readings_within self.now.readings self.now.totals }
    {
        if MOST_READINGS < self.readings {
            return false;
        }
        all_at_most(&self.totals, 65535 * self.readings)
    }
}
