// One second reading.
ghost use Rattle.std.specs.Prelude.{◌≡◌};
ghost use Rattle.causes.specs.Causes.{call_number};
ghost use Rattle.processor.specs.Reading.{reading_done};

use boxes::TOTALS;
use causes::Cause;
use state::State;
use take_reading::{judge, take_reading};

// One second reading: 1, 3, or 0 with the readings and their totals.
#[tactic(auto, unfolding(crate::specs::Reading::reading_done))]
pub fn reading(state: &mut State, counts: [u16; TOTALS]) -> Result<(), Cause>
    ensures number { call_number result ≡ (reading_done state.old counts).number }
    ensures state { state.new ≡ (reading_done state.old counts).state }
{
    judge(state)?;
    take_reading(state, counts);
    Ok(())
}
