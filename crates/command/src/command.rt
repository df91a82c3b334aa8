// What a line asks for.
ghost use Rattle.std.specs.Prelude.{◌≡◌};
ghost use Rattle.command.specs.Grammar.{most_of, command_ok};
ghost use Rattle.command.specs.Asked.{is_load};

use crate::ranges::Ranges;

// The settings that a command changes.
#[derive(Clone, Copy)]
pub enum Setting {
    Limhi,
    Eonly,
    Toferror,
    Junk,
    Hv,
    Hvstep,
}

// The commands that wait for the interval's close.
#[derive(Clone, Copy)]
pub enum Command {
    // The setting, and its new value.
    Set(Setting, u16),
    // The address of the first word, and the y by which the bytes are packed: the line's two numbers, which a struct would only name
    // once more. y stays a number: the state's image holds any byte there, and the limits refuse one that stands for no way to pack.
    Load(u32, u8),
}

// What a line is.
#[derive(Clone, Copy)]
pub enum Line {
    Empty,
    // An unknown keyword or a wrong argument: a case, and no error, since the grammar gives every line one.
    Wrong,
    // A setting, and its new value from the close on.
    Change(Setting, u16),
    // The commands that are carried out when accepted.
    LoadZero,
    LoadAt(u32),
    // Asks whether a load would be accepted, and for the sum of its bytes.
    Ask,
    // The load's address, its y as in `Command::Load`, and the sum that its bytes must have.
    Commit(u32, u8, u32),
}

impl Setting {
    // The largest value of the setting; the least is 0. That of a flag is 1.
    pub fn most(self, ranges: Ranges) -> u16
        ensures { result ≡ most_of self ranges }
    {
        match self {
            Setting::Limhi => ranges.limhi,
            Setting::Eonly => 1,
            Setting::Toferror => 1,
            Setting::Junk => 1,
            Setting::Hv => 1,
            Setting::Hvstep => 255,
        }
    }
}

impl Command {
    // Whether some line gives this command in these ranges.
    pub fn ok(self, ranges: Ranges) -> bool
        ensures { result ≡ command_ok self ranges }
    {
        match self {
            Command::Set(setting, n) => n <= setting.most(ranges),
            Command::Load(a, y) => load::words::load_lawful(a, y, ranges.reach),
        }
    }

    // Whether the command is a load.
    pub fn is_load(self) -> bool
        ensures { result ≡ is_load self }
    {
        matches!(self, Command::Load(_, _))
    }
}
