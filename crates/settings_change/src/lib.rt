// Waiting commands change one settings record in place, one command at a time. The paper names both forms: the thin function over the
// lent record, and the core by value behind it.
#![tactic(auto)]

ghost use Rattle.std.specs.Prelude.{◌≡◌};
ghost use Rattle.command.specs.Change.{settings_after};

use command::command::Command;
use settings::Settings;

// Runs the command on the lent record. A load leaves it as it is.
pub fn apply_to(s: &mut Settings, c: Command)
    ensures { s.new ≡ settings_after s.old c }
{
    *s = c.applied(*s);
}

// The settings after the command, by way of a local record that is lent. Callers whose settings are a value use this one.
pub fn applied_to_copy(s: Settings, c: Command) -> Settings
    ensures { result ≡ settings_after s c }
{
    let mut t = s;
    apply_to(&mut t, c);
    t
}
