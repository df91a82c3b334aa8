// One load package: whether it is staged, its echo, and what it makes of the state, staging and bitmap.
#![tactic(auto)]

ghost use Rattle.std.specs.Prelude.{◌≡◌, true, cond};
ghost use Rattle.causes.specs.Causes.{call_number, carried_out, package_sum};
ghost use Rattle.load.specs.Bitmap.{bitmap_after};
ghost use Rattle.load.specs.Staging.{payload_bytes, fits, staging_after, addresses_after};
ghost use Rattle.state.specs.State.{with_staging};
ghost use Rattle.take_package.specs.Package.{package_lent, package_call_number, staged_echo};
ghost use Rattle.take_package.specs.Judged.{JudgedAs};

use causes::{Cause, call_number, check};
use echo::{ECHO_BYTES, Echo};
use load::bitmap::{BITMAP_BYTES, Bitmap};
use load::package::Package;
use load::staging::{STAGING_BYTES, Staging};
use state::State;

// The package, where it is staged: its sum may be wrong.
#[tactic(auto, unfolding(crate::specs::Package::package_call_number))]
pub fn judge<'a>(state: &State, bytes: &'a [u8]) -> Result<Package<'a>, Cause>
    ensures { JudgedAs result state.now bytes.now }
{
    check(state::limits::within_limits(state), Cause::BufferOrState)?;
    check(!state.commands.load_waits(), Cause::LoadWaiting)?;
    let sent = Package::parse(bytes)?;
    check(sent.fits(state.staging.next), Cause::PastStaging)?;
    Ok(sent)
}

// Whether staging, bitmap and echo have their lengths.
fn is_lent(staging: usize, bitmap: usize, echo: usize) -> bool
    ensures { result ≡ package_lent staging bitmap echo }
{
    (staging == STAGING_BYTES) & (bitmap == BITMAP_BYTES) & (echo == ECHO_BYTES)
}

// Why the call is not answered 0, from the lengths of staging, bitmap and echo: for a wrong sum too, whose package is staged.
#[tactic(auto, using(crate::proofs::PackageLaws::other_lengths, crate::proofs::PackageLaws::right_lengths))]
fn judge_call(
    state: &State,
    bytes: &[u8],
    staging: usize,
    bitmap: usize,
    echo: usize,
) -> Result<(), Cause>
    ensures { call_number result ≡ package_call_number state.now bytes.now staging bitmap echo }
{
    check(is_lent(staging, bitmap, echo), Cause::BufferOrState)?;
    let sent = judge(state, bytes)?;
    check(sent.sum_right(), Cause::PackageSum)
}

// The call's number, from the lengths of staging, bitmap and echo.
pub fn package_number(state: &State, bytes: &[u8], staging: usize, bitmap: usize, echo: usize) -> u8
    ensures { result ≡ package_call_number state.now bytes.now staging bitmap echo }
{
    call_number(&judge_call(state, bytes, staging, bitmap, echo))
}

// The echo of a package that is staged, with OK or with both sums where its sum is wrong. Whether it is, is handed on: the sum of
// a package is worked out once.
pub fn echo_staged(wrong: bool, next: u32, sent: &Package, echo: &mut Echo)
    ensures { echo.new ≡ staged_echo (cond wrong package_sum carried_out) next sent.now.bytes.now }
{
    let many = sent.payload_bytes();
    if wrong {
        let received = sent.received_sum();
        let computed = sent.computed_sum();
        echo::write_package_error(echo, next, many, received, computed);
    } else {
        echo::write_package_ok(echo, next, many);
    }
}

// The package's bytes go to staging, its bits are set or cleared as its sum is wrong or right, and both addresses move.
pub fn stage(
    state: &mut State,
    wrong: bool,
    sent: &Package,
    staging: &mut Staging,
    bitmap: &mut Bitmap,
)
    requires { fits sent.now.bytes.now state.old.staging.next ≡ true }
    ensures state { state.new ≡ with_staging state.old (addresses_after state.old.staging sent.now.bytes.now) }
    ensures staging { staging.new ≡ staging_after staging.old state.old.staging.next sent.now.bytes.now }
    ensures bitmap { bitmap.new
        ≡ bitmap_after bitmap.old state.old.staging.next (payload_bytes sent.now.bytes.now) wrong }
{
    let many = sent.payload_bytes();
    load::bitmap::put_bits(bitmap, state.staging.next as usize, many as usize, wrong);
    state.staging.place(staging, sent);
}
