// What both programs begin with: a capacity, and the lengths of the buffers that go by it.
ghost use Rattle.std.specs.Prelude.{◌≡◌};
ghost use Rattle.state.specs.State.{fresh_state};
ghost use Rattle.stream.specs.Start.{first_capacity};

use capacity::Capacity;
use packet::layout::PACKET_BYTES;
use state::State;

pub const SLOTS: usize = 704;

// The output of a close.
pub const OUT_BYTES: usize = 13 * PACKET_BYTES;

// The state of a fresh processor.
pub fn fresh() -> State
    ensures { result ≡ fresh_state first_capacity }
{
    state::fresh(Capacity::Slots704)
}
