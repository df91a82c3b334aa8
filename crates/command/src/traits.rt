// A line's traits: what its checks and its effect go by. Flags and no enum: more than one holds of a line, and each is asked by
// another check.
ghost use Rattle.std.specs.Prelude.{◌≡◌};
ghost use Rattle.command.specs.Asked.{no_command, about_load, other_command, traits_of, sum_agrees};

use crate::command::{Command, Line};

#[derive(Clone, Copy)]
pub struct Traits {
    // The keyword is unknown or an argument is wrong.
    pub wrong: bool,
    // The line is a command: every line but an empty or a wrong one.
    pub command: bool,
    // It uses staging or its addresses, so that a waiting load blocks it.
    pub staging: bool,
    // It is about a load of the staged bytes, so that none of them may be bad.
    pub load: bool,
    // It asks for the sum of the staged bytes.
    pub ask: bool,
    // The sum that the staged bytes must have.
    pub sum: Option<u32>,
    // The command that it leaves waiting for the close.
    pub leaves: Option<Command>,
}

fn no_command(wrong: bool) -> Traits
    ensures { result ≡ no_command wrong }
{
    Traits {
        wrong,
        command: false,
        staging: false,
        load: false,
        ask: false,
        sum: None,
        leaves: None,
    }
}

// A command about a load of the staged bytes.
fn about_load(ask: bool, sum: Option<u32>, leaves: Option<Command>) -> Traits
    ensures { result ≡ about_load ask sum leaves }
{
    Traits {
        wrong: false,
        command: true,
        staging: true,
        load: true,
        ask,
        sum,
        leaves,
    }
}

fn other_command(staging: bool, leaves: Option<Command>) -> Traits
    ensures { result ≡ other_command staging leaves }
{
    Traits {
        wrong: false,
        command: true,
        staging,
        load: false,
        ask: false,
        sum: None,
        leaves,
    }
}

pub fn traits_of(l: Line) -> Traits
    ensures { result ≡ traits_of l }
{
    match l {
        Line::Empty => no_command(false),
        Line::Wrong => no_command(true),
        Line::Change(k, n) => other_command(false, Some(Command::Set(k, n))),
        Line::LoadZero => other_command(true, None),
        Line::LoadAt(_) => other_command(true, None),
        Line::Ask => about_load(true, None, None),
        Line::Commit(a, y, n) => about_load(false, Some(n), Some(Command::Load(a, y))),
    }
}

// Whether the sum is the one that a line names, where it names one.
pub fn sum_agrees(named: Option<u32>, sum: u32) -> bool
    ensures { result ≡ sum_agrees named sum }
{
    named.is_none_or(|n| n == sum)
}
