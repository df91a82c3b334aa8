// The ground reader: two calls that take any bytes.
#![tactic(auto)]

ghost use Rattle.std.specs.Prelude.{◌≡◌};
ghost use Rattle.ground.specs.Ground.{told, read_of, records_of};

mod body;

use body::contents_of;
use causes::Cause;
use decode::faults::{Accepted, judge};
use decode::fields;
use decode::kind::Kind;
use packet::layout::{BEACON_RATES, BODY_AT, FRAME_AT, RATES, TIME_AT};
use rate_code::editions::Mark;
use settings::Settings;
use wire::number::BigEndian;

// What a packet that is taken holds: its header and frame, and what its kind has.
#[derive(Clone, Copy)]
pub struct Packet {
    pub application: u16,
    pub sequence: u16,
    pub time: u32,
    pub frame: u16,
    pub contents: Contents,
}

#[derive(Clone, Copy)]
pub enum Contents {
    Rate {
        // The edition of the rates' codes, byte 269.
        mark: Mark,
        // The least counts of eight totals and 116 boxes.
        rates: [u32; RATES],
        settings: Settings,
        // The sum of all table words modulo 2^24.
        sum: u32,
    },
    Sample {
        // Which of the sample packets.
        p: u8,
    },
    Beacon {
        mark: Mark,
        // The least counts of twelve beacons, then of eligible, replaced and dropped events.
        rates: [u32; BEACON_RATES],
    },
}

// Reads any bytes.
#[tactic(auto, using(crate::proofs::Answers::told_read), unfolding(crate::specs::Ground::read_of))]
pub fn read(packet: &[u8]) -> Result<Packet, Cause>
    ensures { told result ≡ read_of packet.now }
{
    let accepted = judge(packet)?;
    let packet = accepted.packet;
    Ok(Packet {
        application: fields::application(packet),
        sequence: fields::sequence(packet),
        time: u32::read(packet, TIME_AT),
        frame: u16::read(packet, FRAME_AT),
        contents: contents_of(accepted),
    })
}

// The record bytes of an accepted sample packet, 11 to 266, as a part of it; of any other bytes an empty part.
#[tactic(auto, unfolding(crate::specs::Ground::records_of, crate::specs::Ground::samples_in))]
pub fn records(packet: &[u8]) -> &[u8]
    ensures { result.now ≡ records_of packet.now }
{
    match judge(packet) {
        Ok(
            Accepted {
                packet,
                kind: Kind::Sample,
            },
        ) => &packet[BODY_AT..FRAME_AT],
        _ => &[],
    }
}
