// The settings that commands change and that sorting, samples and rate packets go by.
#![tactic(auto)]

ghost use Rattle.std.specs.Prelude.{◌≡◌};
ghost use Rattle.settings.specs.Settings.{fresh_settings, settings_within, settings_flags, settings_by};

use wire::bits::is_set;

#[derive(Clone, Copy)]
pub struct Settings {
    // How many sample slots later events of priority 1 may replace.
    pub limhi: u16,
    // Events without a valid stop are sorted.
    pub eonly: bool,
    // Events with the error flag are sorted.
    pub toferror: bool,
    // Events of boxes 6 and 7 are eligible as samples.
    pub junk: bool,
    // The high voltage supply is enabled.
    pub hv: bool,
    // Its voltage, in steps.
    pub hvstep: u8,
}

// The flags' values in a byte; the bits below junk's have no use.
pub const HV_FLAG: u8 = 128;

pub const EONLY_FLAG: u8 = 64;

pub const TOFERROR_FLAG: u8 = 32;

pub const JUNK_FLAG: u8 = 16;

impl Settings {
    // The settings of a fresh processor.
    pub fn fresh() -> Settings
        ensures { result ≡ fresh_settings }
    {
        Settings {
            limhi: 500,
            eonly: false,
            toferror: false,
            junk: false,
            hv: false,
            hvstep: 0,
        }
    }

    // Whether each setting is in its range, LIMHI's largest value being given. Every value of the other fields is.
    pub fn within(self, limhi: u16) -> bool
        ensures { result ≡ settings_within limhi self }
    {
        self.limhi <= limhi
    }

    // The settings that are on or off, in one byte.
    pub fn flags(self) -> u8
        ensures { result ≡ settings_flags self }
    {
        HV_FLAG * u8::from(self.hv)
            + EONLY_FLAG * u8::from(self.eonly)
            + TOFERROR_FLAG * u8::from(self.toferror)
            + JUNK_FLAG * u8::from(self.junk)
    }

    // The settings of such a byte and of the two numbers; other bits of the byte are ignored.
    pub fn from_flags(flags: u8, limhi: u16, hvstep: u8) -> Settings
        ensures { result ≡ settings_by flags limhi hvstep }
    {
        Settings {
            limhi,
            eonly: is_set(flags, EONLY_FLAG),
            toferror: is_set(flags, TOFERROR_FLAG),
            junk: is_set(flags, JUNK_FLAG),
            hv: is_set(flags, HV_FLAG),
            hvstep,
        }
    }
}
