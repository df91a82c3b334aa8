// One packet of the tables aboard, for the ground.
ghost use Rattle.std.specs.Prelude.{◌≡◌};
ghost use Rattle.causes.specs.Causes.{call_number};
ghost use Rattle.processor.specs.Listing.{listing_done};

use causes::{Cause, check};
use packet::layout::PACKET_BYTES;
use state::State;
use tables::Tables;

// Packet i of the 250 that bring the tables down: 1, 14, or 0 with the packet in `out`. Nothing aboard changes.
#[tactic(auto, unfolding(crate::specs::Listing::listing_done, crate::specs::Listing::listing_number))]
pub fn listing(state: &State, i: u16, time: u32, tables: &[u8], out: &mut [u8]) -> Result<(), Cause>
    ensures number { call_number result
        ≡ (listing_done state.now i time tables.now out.old).number }
    ensures out { out.new ≡ (listing_done state.now i time tables.now out.old).out }
{
    let Ok(tables) = <&Tables>::try_from(tables) else {
        return Err(Cause::BufferOrState);
    };
    let Some(out) = out.as_mut_array::<PACKET_BYTES>() else {
        return Err(Cause::BufferOrState);
    };
    check(state::limits::within_limits(state), Cause::BufferOrState)?;
    check(
        usize::from(i) < listing_packet::layout::PACKETS,
        Cause::NotListed,
    )?;
    listing_packet::write::write_listing(out, state.frame, time, usize::from(i), tables);
    Ok(())
}
