// The packets' application numbers.
ghost use Rattle.std.specs.Prelude.{◌≡◌, ◌<◌};
ghost use Rattle.packet.specs.Layout.{secondary_flag};
ghost use Rattle.packet.specs.Packet.{application_of_sample};

pub const RATE_APPLICATION: u16 = 605;

pub const SAMPLE_APPLICATION: u16 = 606;

pub const BEACON_APPLICATION: u16 = 624;

// The number of sample packet p.
pub fn of_sample(p: u8) -> u16
    ensures { (result ≡ application_of_sample p) × (result < secondary_flag) }
{
    SAMPLE_APPLICATION + u16::from(p)
}
