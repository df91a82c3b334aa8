// What the program prints.
ghost use Rattle.std.specs.Prelude.{◌<◌};

use command::command::{Line, Setting};
use echo::Echo;

// The echo's bytes, two digits each.
pub fn show_echo(rt: &HostRuntime, echo: &Echo) {
    let _ = print!(rt; "echo ");
    for byte in echo {
        let _ = print!(rt; "{byte:02x}");
    }
}

// A function and no `Display`: `Setting` stands in another crate.
fn name(setting: Setting) -> &'static str {
    match setting {
        Setting::Limhi => "limhi",
        Setting::Eonly => "eonly",
        Setting::Toferror => "toferror",
        Setting::Junk => "junk",
        Setting::Hv => "hv",
        Setting::Hvstep => "hvstep",
    }
}

pub fn show_line(rt: &HostRuntime, line: Line) {
    let _ = match line {
        Line::Empty => print!(rt; "empty"),
        Line::Wrong => print!(rt; "wrong"),
        Line::Change(setting, n) => print!(rt; "{} {n}", name(setting)),
        Line::LoadZero => print!(rt; "load 0"),
        Line::LoadAt(a) => print!(rt; "loadat {a}"),
        Line::Ask => print!(rt; "ask"),
        Line::Commit(a, y, sum) => print!(rt; "commit {a} {y} {sum}"),
    };
}

// A number that depends on each byte and its place.
pub fn digest(part: &[u8]) -> u32
    ensures { result < 65521 }
{
    let mut h: u32 = 0;
    for b in part {
        h = mixed(h, *b);
    }
    h
}

fn mixed(h: u32, b: u8) -> u32
    requires { h < 65521 }
    ensures { result < 65521 }
{
    (31 * h + u32::from(b)) % 65521
}
