// Writes the three packets for given values, and what the reader answers for them and for damaged ones.
#![tactic(auto)]

mod cases;
mod show;
mod values;

use boxes::{BEACONS, BOXES};
use packet::layout;
use packet::stamp::stamp_of;
use packet::write::{BeaconBody, RateBody};
use rate_code::editions::Mark;
use settings::Settings;

fn main(rt: HostRuntime) {
    let mut part = [255u8; layout::PACKET_BYTES];
    let totals = [4095u32, 4096, 4097, 8191, 8192, 1000000, 16777215, 0];
    let mut boxes = [0u32; BOXES];
    values::fill_counts(&mut boxes, 1);
    let s = Settings {
        limhi: 704,
        eonly: true,
        toferror: false,
        junk: true,
        hv: true,
        hvstep: 201,
    };
    let stamp = stamp_of(0, 305419896, Mark::Second.number());
    let body = RateBody {
        totals: &totals,
        boxes: &boxes,
        settings: s,
        sum: 11259375,
    };
    packet::write::write_rate(&mut part, stamp, body);
    show::packet(&rt, &part);
    cases::rate(&rt, &part);
    let mut records = [0u32; layout::RECORDS];
    values::fill_records(&mut records, 7);
    packet::write::write_samples(&mut part, stamp_of(40000, 4294967295, 10), &records);
    show::packet(&rt, &part);
    cases::sample(&rt, &part);
    let mut beacons = [0u32; BEACONS];
    values::fill_counts(&mut beacons, 99);
    let body = BeaconBody {
        beacons: &beacons,
        eligible: 1000000,
        replaced: 704,
        dropped: 998592,
    };
    packet::write::write_beacon(&mut part, stamp_of(65535, 60, Mark::Second.number()), body);
    show::packet(&rt, &part);
    cases::beacon(&rt, &part);
}
