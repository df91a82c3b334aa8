// One load package.
ghost use Rattle.std.specs.Prelude.{◌≡◌};
ghost use Rattle.causes.specs.Causes.{call_number};
ghost use Rattle.processor.specs.Package.{package_done};

use causes::{Cause, check};
use state::State;
use take_package::{echo_staged, judge, stage};

// One load package: 1, 6, 8, 9, or its bytes staged with 0 or 10.
#[tactic(auto, unfolding(crate::specs::Package::package_done))]
pub fn package(
    state: &mut State,
    bytes: &[u8],
    staging: &mut [u8],
    bitmap: &mut [u8],
    echo: &mut [u8],
) -> Result<(), Cause>
    ensures number { call_number result
        ≡ (package_done state.old bytes.now staging.old bitmap.old echo.old).answer.number }
    ensures state { state.new
        ≡ (package_done state.old bytes.now staging.old bitmap.old echo.old).answer.state }
    ensures staging { staging.new
        ≡ (package_done state.old bytes.now staging.old bitmap.old echo.old).staging }
    ensures bitmap { bitmap.new
        ≡ (package_done state.old bytes.now staging.old bitmap.old echo.old).bitmap }
    ensures echo { echo.new
        ≡ (package_done state.old bytes.now staging.old bitmap.old echo.old).echo }
{
    let Some(staging) = staging.as_mut_array() else {
        return Err(Cause::BufferOrState);
    };
    let Some(bitmap) = bitmap.as_mut_array() else {
        return Err(Cause::BufferOrState);
    };
    let Some(echo) = echo.as_mut_array() else {
        return Err(Cause::BufferOrState);
    };
    let sent = judge(state, bytes)?;
    let wrong = !sent.sum_right();
    echo_staged(wrong, state.staging.next, &sent, echo);
    stage(state, wrong, &sent, staging, bitmap);
    check(!wrong, Cause::PackageSum)
}
