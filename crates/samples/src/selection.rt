// An event among the samples: its record goes to its slot, if it is eligible.
ghost use Rattle.std.specs.Prelude.{◌≡◌, ◌≤◌, ◌<◌, length};
ghost use Rattle.sort.specs.Boxes.{OutcomeNames};
ghost use Rattle.samples.specs.Selection.{slots_taken, use_taken};

use crate::slots::SlotUse;
use settings::Settings;
use sort::ranged::Ranged;
use sort::sorting::Outcome;

// What an interval's events have come to as samples: the use of the slots, and how many events were eligible.
#[derive(Clone, Copy)]
pub struct SampleUse {
    pub slots: SlotUse,
    pub eligible: u32,
}

impl SampleUse {
    // There are as many slots as are lent. LIMHI is bounded by what is lent, so no type holds it.
    pub fn select(&mut self, s: Settings, slots: &mut [u32], e: Ranged, o: Outcome)
        requires limhi_in_bounds { s.limhi ≤ length slots.old }
        requires outcome_names { OutcomeNames o }
        requires eligible_in_bounds { self.old.eligible < 4294967295 }
        ensures slots { slots.new ≡ slots_taken (length slots.old) self.old s slots.old e o }
        ensures kept { self.new ≡ use_taken (length slots.old) self.old s o }
    {
        if crate::eligible(s.junk, o) {
            let word = crate::record_of(e, o);
            self.eligible += 1;
            self.slots
                .place(slots, usize::from(s.limhi), word, crate::priority_of(o));
        }
    }
}
