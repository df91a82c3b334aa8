// An event as the detector hands it over.
ghost use Rattle.std.specs.Prelude.{◌≡◌};
ghost use Rattle.sort.specs.Event.{in_range, gain_of, channel_of};

#[derive(Clone, Copy)]
pub struct Event {
    // Time-of-flight channel, 0 to 511.
    pub t: u16,
    // High-gain energy channel, 0 to 4095.
    pub high: u16,
    // Low-gain energy channel, 0 to 2047.
    pub low: u16,
    pub flg0: bool,
    pub flg1: bool,
    pub error: bool,
    // A valid stop was seen.
    pub stop: bool,
}

// The last channel of each field, and the last high channel that has a high-gain energy.
pub const LAST_T: u16 = 511;

pub const LAST_HIGH: u16 = 4095;

pub const LAST_LOW: u16 = 2047;

pub const LAST_HIGH_GAIN: u16 = 2047;

impl Event {
    // Whether every field is in its range, that of the channel which is not used too.
    pub fn in_range(&self) -> bool
        ensures { result ≡ in_range self.now }
    {
        (self.t <= LAST_T) & (self.high <= LAST_HIGH) & (self.low <= LAST_LOW)
    }

    // The gain bit: true where the low-gain channel is used.
    pub fn gain(&self) -> bool
        ensures { result ≡ gain_of self.now }
    {
        LAST_HIGH_GAIN < self.high
    }

    // The channel used, by the gain bit.
    pub fn channel(&self) -> u16
        ensures { result ≡ channel_of self.now }
    {
        if self.gain() { self.low } else { self.high }
    }
}
