// The processor's state, in parts, and the state of a fresh processor.
#![tactic(auto)]

pub mod interval;
pub mod limits;

ghost use Rattle.std.specs.Prelude.{◌≡◌};
ghost use Rattle.state.specs.State.{fresh_state};

use capacity::Capacity;
use command_list::CommandList;
use interval::Interval;
use load::staging::Addresses;
use settings::Settings;

#[derive(Clone, Copy)]
pub struct State {
    // Intervals closed, modulo 65,536.
    pub frame: u16,
    pub interval: Interval,
    pub settings: Settings,
    pub commands: CommandList,
    // The next address and the reach of staging.
    pub staging: Addresses,
    // How many sample slots there are.
    pub capacity: Capacity,
}

// The state of a fresh processor of this capacity.
#[tactic(auto, unfolding(crate::specs::State::fresh_state))]
pub fn fresh(capacity: Capacity) -> State
    ensures { result ≡ fresh_state capacity }
{
    State {
        frame: 0,
        interval: interval::fresh(),
        settings: Settings::fresh(),
        commands: CommandList::fresh(),
        staging: Addresses::fresh(),
        capacity,
    }
}
