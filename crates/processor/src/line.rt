// One command line.
ghost use Rattle.std.specs.Prelude.{◌≡◌, IfOk, length};
ghost use Rattle.causes.specs.Causes.{call_number};
ghost use Rattle.causes.specs.Checks.{number_by};
ghost use Rattle.state.specs.Limits.{within_limits};
ghost use Rattle.take_line.specs.Line.{line_lent, line_checks};
ghost use Rattle.processor.specs.Line.{line_done};

use causes::{Cause, check};
use load::bitmap::Bitmap;
use load::staging::Staging;
use state::State;
use take_line::take_line;

// One command line: 1, 4, 5, 6, 7, 15, 16, or 0 with the command waiting or carried out, and the sum that an ask returns.
#[tactic(auto, unfolding(crate::specs::Line::line_done, take_line::specs::Line::line_number))]
pub fn line(
    state: &mut State,
    line: &[u8],
    staging: &[u8],
    bitmap: &[u8],
    echo: &mut [u8],
) -> Result<u32, Cause>
    ensures number { call_number result
        ≡ (line_done state.old line.now staging.now bitmap.now echo.old).answer.number }
    ensures state { state.new
        ≡ (line_done state.old line.now staging.now bitmap.now echo.old).answer.state }
    ensures sum { IfOk result (λ sum. sum
        ≡ (line_done state.old line.now staging.now bitmap.now echo.old).answer.sum) }
    ensures echo { echo.new
        ≡ (line_done state.old line.now staging.now bitmap.now echo.old).echo }
{
    let Ok(staging) = <&Staging>::try_from(staging) else {
        return Err(Cause::BufferOrState);
    };
    let Ok(bitmap) = <&Bitmap>::try_from(bitmap) else {
        return Err(Cause::BufferOrState);
    };
    let Some(echo) = echo.as_mut_array() else {
        return Err(Cause::BufferOrState);
    };
    check(state::limits::within_limits(state), Cause::BufferOrState)?;
    check(command::line::bytes_ok(line), Cause::LineBytes)?;
    take_line(state, line, staging, bitmap, echo)
}
