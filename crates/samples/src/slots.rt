// The sample slots that the caller lends, and the use that an interval makes of them.
ghost use Rattle.std.specs.Prelude.{◌≡◌, ◌≤◌, length};
ghost use Rattle.samples.specs.Samples.{place_of, slots_after, use_after};

// How many slots hold a record, and how many of them a later event replaced. Numbers and no slices: the slots are lent at each call.
#[derive(Clone, Copy)]
pub struct SlotUse {
    pub used: usize,
    pub replaced: usize,
}

impl SlotUse {
    // A record, as a 32-bit word, goes into the first free slot. When none is free, one of priority 1 goes into the next slot
    // to replace, as long as LIMHI allows it. Any other drops out.
    #[tactic(auto, unfolding(crate::specs::Samples::place_of))]
    pub fn place(&mut self, slots: &mut [u32], limhi: usize, word: u32, priority: bool)
        requires { limhi ≤ length slots.old }
        ensures slots { slots.new ≡ slots_after (place_of (length slots.old) self.old limhi priority) slots.old self.old word }
        ensures kept { self.new ≡ use_after (place_of (length slots.old) self.old limhi priority) self.old }
    {
        if self.used < slots.len() {
            slots[self.used] = word;
            self.used += 1;
        } else if priority && self.replaced < limhi {
            slots[self.replaced] = word;
            self.replaced += 1;
        }
    }
}
