// One command line: the cause among 5, 6, 7, 15 and 16, and what an accepted line makes of the state and the echo.
#![tactic(auto)]

ghost use Rattle.std.specs.Prelude.{◌≡◌, true, not, ◌&&◌, cond, ◌≤◌, length, IfOk};
ghost use Rattle.causes.specs.Causes.{call_number};
ghost use Rattle.causes.specs.Checks.{number_by};
ghost use Rattle.load.specs.Bitmap.{none_bad, staged_sum};
ghost use Rattle.load.specs.Staging.{staging_bytes};
ghost use Rattle.command.specs.Asked.{traits_of};
ghost use Rattle.command.specs.Grammar.{bytes_ok};
ghost use Rattle.command_list.specs.CommandList.{most_commands, commands_full};
ghost use Rattle.state.specs.Limits.{within_limits};
ghost use Rattle.take_line.specs.Line.{staged_checks, command_checks, sum_returned};
ghost use Rattle.take_line.specs.Line.{addresses_after_line, state_after_line, line_echo, state_checks, line_by};
ghost use Rattle.take_line.specs.Judged.{JudgedAs};

use causes::{Cause, check};
use command::command::Line;
use command::traits::{Traits, sum_agrees, traits_of};
use echo::Echo;
use load::bitmap::Bitmap;
use load::staging::{Addresses, Staging};
use state::State;

// The cause 15 or 16 of a line about a load, or the sum that it returns: that of the staged bytes for an ask. Staging is
// read once, and only where no byte is bad. Staging, its bitmap and its reach come apart, as the call is lent the first two and the
// state has the third.
fn judge_staged(
    traits: Traits,
    staging: &Staging,
    bitmap: &Bitmap,
    reach: u32,
) -> Result<u32, Cause>
    requires reach_bound { reach ≤ staging_bytes }
    requires load_value { traits.load ≡ true }
    ensures { JudgedAs result (staged_checks (none_bad bitmap.now reach) (staged_sum staging.now reach) traits)
        (cond traits.ask (staged_sum staging.now reach) 0) }
{
    let good = load::bitmap::none_bad(bitmap, reach as usize);
    check(good, Cause::BadStaged)?;
    let sum = load::bitmap::staged_sum(staging, reach as usize);
    check(sum_agrees(traits.sum, sum), Cause::SumDiffers)?;
    Ok(if traits.ask { sum } else { 0 })
}

// The cause among 5, 6, 7, 15 and 16, by whether a load waits and whether there were 32 commands, or the sum that the line
// returns; 0 for every line but an ask.
fn judge(
    waits: bool,
    full: bool,
    line: Line,
    staging: &Staging,
    bitmap: &Bitmap,
    reach: u32,
) -> Result<u32, Cause>
    requires { reach ≤ staging_bytes }
    ensures { JudgedAs result (command_checks waits full (none_bad bitmap.now reach) (staged_sum staging.now reach) line)
        (sum_returned line (staged_sum staging.now reach)) }
{
    let traits = traits_of(line);
    check(!traits.wrong, Cause::WrongLine)?;
    check(!(traits.staging & waits), Cause::LoadWaiting)?;
    check(!(traits.command & full), Cause::CommandLimit)?;
    if !traits.load {
        return Ok(0);
    }
    judge_staged(traits, staging, bitmap, reach)
}

// The staging addresses after an accepted line. A `match`: two lines move them, each in its own way.
fn addresses_after_line(addresses: Addresses, line: Line) -> Addresses
    ensures { result ≡ addresses_after_line addresses line }
{
    match line {
        Line::LoadZero => Addresses::fresh(),
        Line::LoadAt(next) => Addresses { next, ..addresses },
        _ => addresses,
    }
}

// What an accepted line makes of the state: its command is counted, and waits or moves the staging addresses.
#[tactic(auto, unfolding(crate::specs::Line::state_after_line))]
fn accept(state: &mut State, line: Line)
    requires state_value { within_limits state.old ≡ true }
    requires commands_value { not ((traits_of line).command && commands_full state.old.commands) ≡ true }
    ensures { state.new ≡ state_after_line state.old line }
{
    let traits = traits_of(line);
    if traits.command {
        state.commands.accept(traits.leaves);
    }
    state.staging = addresses_after_line(state.staging, line);
}

// The echo of an accepted line.
fn write_echo(frame: u16, accepted: usize, line: &[u8], echo: &mut Echo)
    requires line_len { length line.now ≤ 80 }
    requires accepted_le_most_commands { accepted ≤ most_commands }
    ensures { echo.new ≡ line_echo frame accepted line.now }
{
    if line.is_empty() {
        echo::write_prompt(echo);
    } else {
        echo::write_accepted(echo, frame, accepted as u8, line);
    }
}

// A line whose bytes are right: 5, 6, 7, 15 or 16 with the error echo, or the sum that it returns, with the command waiting
// or carried out. Any state may be lent: its limits are judged before, and are no invariant.
pub fn take_line(
    state: &mut State,
    line: &[u8],
    staging: &Staging,
    bitmap: &Bitmap,
    echo: &mut Echo,
) -> Result<u32, Cause>
    requires line_len { length line.now ≤ 80 }
    requires state_value { (within_limits state.old ≡ true) × (bytes_ok line.now ≡ true) }
    ensures number { call_number result
        ≡ (line_by (number_by (state_checks state.old line.now staging.now bitmap.now)) state.old
        line.now staging.now echo.old).answer.number }
    ensures state { state.new
        ≡ (line_by (number_by (state_checks state.old line.now staging.now bitmap.now)) state.old
        line.now staging.now echo.old).answer.state }
    ensures sum { IfOk result (λ sum. sum
        ≡ (line_by (number_by (state_checks state.old line.now staging.now bitmap.now)) state.old
        line.now staging.now echo.old).answer.sum) }
    ensures echo { echo.new
        ≡ (line_by (number_by (state_checks state.old line.now staging.now bitmap.now)) state.old
        line.now staging.now echo.old).echo }
{
    let asked = command::line::parse(line, state::limits::ranges_of(state));
    let waits = state.commands.load_waits();
    let full = state.commands.full();
    let judged = judge(waits, full, asked, staging, bitmap, state.staging.reach);
    if judged.is_err() {
        echo::write_refused(echo, line);
        return judged;
    }
    write_echo(state.frame, state.commands.accepted, line, echo);
    accept(state, asked);
    judged
}
