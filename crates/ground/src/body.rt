// What the reader hands back of a packet's own bytes, by kind.
ghost use Rattle.std.specs.Prelude.{◌≡◌};
ghost use Rattle.ground.specs.Ground.{contents_of};

use crate::Contents;
use decode::faults::Accepted;
use decode::fields;
use decode::kind::Kind;
use packet::layout;
use packet::layout::{BEACON_RATES, RATES};
use rate_code::editions::Mark;

// A match on the kind, since each has fields of its own.
#[tactic(auto, unfolding(decode::specs::Read::body_good, decode::specs::Read::rate_good, decode::specs::Read::beacon_good))]
pub fn contents_of(accepted: Accepted) -> Contents
    ensures { result ≡ contents_of accepted.entry.kind accepted.entry.packet.now }
{
    let Accepted { packet, kind } = accepted;
    let byte = packet[layout::MARK_AT];
    let mark = Mark::from(byte);
    match kind {
        Kind::Rate => {
            let mut rates = [0u32; RATES];
            fields::rates(packet, &mut rates);
            Contents::Rate {
                mark,
                rates,
                settings: fields::settings(packet),
                sum: wire::read::u24_at(packet, layout::TABLE_SUM_AT),
            }
        }
        Kind::Sample => Contents::Sample { p: byte },
        Kind::Beacon => {
            let mut rates = [0u32; BEACON_RATES];
            fields::rates(packet, &mut rates);
            Contents::Beacon { mark, rates }
        }
    }
}
