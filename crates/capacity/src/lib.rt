// How many sample slots a processor has, and every number that follows from it.
#![tactic(auto)]

ghost use Rattle.std.specs.Prelude.{◌≡◌};
ghost use Rattle.capacity.specs.Capacity.{numbers_of};

#[derive(Clone, Copy)]
pub enum Capacity {
    Slots704,
}

#[derive(Clone, Copy)]
pub struct Numbers {
    // Sample slots.
    pub slots: usize,
    // LIMHI's largest value.
    pub limhi: u16,
    // Sample packets that a close writes, and all its packets.
    pub samples: u8,
    pub packets: usize,
}

// The one table of these numbers.
pub fn numbers_of(c: Capacity) -> Numbers
    ensures { result ≡ numbers_of c }
{
    match c {
        Capacity::Slots704 => Numbers {
            slots: 704,
            limhi: 0x2c0,
            samples: 11,
            packets: 13,
        },
    }
}
