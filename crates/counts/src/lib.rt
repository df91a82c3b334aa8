// The counts of the rate boxes and beacons.
#![tactic(auto)]

ghost use Rattle.std.specs.Prelude.{◌≡◌, ◌+◌, ◌≤◌, ◌<◌, cond, IfSome};
ghost use Rattle.wire.specs.Lists.{EachBelow};
ghost use Rattle.boxes.specs.Boxes.{box_count, beacon_count};
ghost use Rattle.sort.specs.Boxes.{OutcomeNames};
ghost use Rattle.counts.specs.Counts.{with_box, with_beacon, counted_of};

use boxes::{BEACONS, BOXES, DISCARDED_BOX, OUT_OF_BOUNDS_BOX};
use sort::sorting::Outcome;

// Box b is counted at index b - 1, and beacon n at index n - 1.
#[derive(Clone, Copy, Default)]
pub struct Counts {
    pub boxes: [u32; BOXES],
    pub beacons: [u32; BEACONS],
}

// The boxes that count the events of gain 0 and of priority 0: those of 1 are counted in the next.
const FIRST_GAIN_BOX: u8 = 3;

const FIRST_PRIORITY_BOX: u8 = 1;

impl Counts {
    // One more in box b.
    fn add_box(&mut self, b: u8)
        requires le_b { (1 ≤ b) × (b ≤ box_count) }
        requires each_below { EachBelow 4294967295 self.old.boxes }
        ensures { self.new ≡ with_box self.old b }
    {
        self.boxes[usize::from(b) - 1] += 1;
    }

    // One more in the box, or in the next one where the flag is set.
    fn add_box_by(&mut self, b: u8, flag: bool)
        requires le_b { (1 ≤ b) × (b < box_count) }
        requires each_below { EachBelow 4294967295 self.old.boxes }
        ensures { self.new ≡ with_box self.old (cond flag (b + 1) b) }
    {
        self.add_box(if flag { b + 1 } else { b });
    }

    // One more in the beacon, if there is one.
    fn add_beacon(&mut self, beacon: Option<u8>)
        requires named { IfSome beacon (λ n. (1 ≤ n) × (n ≤ beacon_count)) }
        requires each_below { EachBelow 4294967295 self.old.beacons }
        ensures { self.new ≡ with_beacon self.old beacon }
    {
        if let Some(n) = beacon {
            self.beacons[usize::from(n) - 1] += 1;
        }
    }

    // One more in each box and beacon that the rules name. A state is judged before an event, so its counts have no invariant.
    #[tactic(auto, using(crate::proofs::CountLaws::cell_counted), unfolding(crate::specs::Counts::counted_of))]
    pub fn count(&mut self, o: Outcome)
        requires outcome_names { OutcomeNames o }
        requires each_below { EachBelow 1000000 self.old.boxes }
        requires each_below_2 { EachBelow 1000000 self.old.beacons }
        ensures { self.new ≡ counted_of self.old o }
    {
        match o {
            Outcome::Discarded => self.add_box(DISCARDED_BOX),
            Outcome::OutOfBounds(gain) => {
                self.add_box_by(FIRST_GAIN_BOX, gain);
                self.add_box(OUT_OF_BOUNDS_BOX);
            }
            Outcome::InCell(gain, cell) => {
                self.add_box_by(FIRST_GAIN_BOX, gain);
                self.add_box_by(FIRST_PRIORITY_BOX, cell.priority);
                self.add_box(cell.ratebox);
                self.add_beacon(cell.beacon);
            }
        }
    }
}
