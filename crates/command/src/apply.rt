// What a waiting command makes of the settings, by value.
ghost use Rattle.std.specs.Prelude.{◌≡◌};
ghost use Rattle.command.specs.Change.{changed, settings_after};

use crate::command::{Command, Setting};
use settings::Settings;

impl Setting {
    // The settings with this one at n. A flag is set by 1; of a number above a byte, hvstep keeps the last eight bits.
    fn changed(self, s: Settings, n: u16) -> Settings
        ensures { result ≡ changed s self n }
    {
        let mut t = s;
        match self {
            Setting::Limhi => {
                t.limhi = n;
            }
            Setting::Eonly => {
                t.eonly = n == 1;
            }
            Setting::Toferror => {
                t.toferror = n == 1;
            }
            Setting::Junk => {
                t.junk = n == 1;
            }
            Setting::Hv => {
                t.hv = n == 1;
            }
            Setting::Hvstep => {
                t.hvstep = (n % 256) as u8;
            }
        }
        t
    }
}

impl Command {
    // The settings after the command. A load leaves them as they are.
    pub fn applied(self, s: Settings) -> Settings
        ensures { result ≡ settings_after s self }
    {
        match self {
            Command::Set(setting, n) => setting.changed(s, n),
            Command::Load(_, _) => s,
        }
    }
}
