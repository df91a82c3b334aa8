// The limits of a state.
ghost use Rattle.std.specs.Prelude.{◌≡◌};
ghost use Rattle.state.specs.Limits.{ranges_of, within_limits};

use crate::State;
use command::ranges::Ranges;

// The ranges of commands.
pub fn ranges_of(state: &State) -> Ranges
    ensures { result ≡ ranges_of state.now }
{
    Ranges {
        reach: state.staging.reach,
        limhi: capacity::numbers_of(state.capacity).limhi,
    }
}

// Whether every part of a state is within its limits.
#[tactic(auto, unfolding(crate::specs::Limits::within_limits))]
pub fn within_limits(state: &State) -> bool
    ensures { result ≡ within_limits state.now }
{
    let numbers = capacity::numbers_of(state.capacity);
    state.interval.within(numbers.slots)
        & state.settings.within(numbers.limhi)
        & state.commands.within(ranges_of(state))
        & state.staging.within()
}
