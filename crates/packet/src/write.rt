// The three packets, each written into a lent part of 272 bytes of which nothing old remains. Parts are slices and no
// `&mut [u8; 272]`: the way of the sample packets names no array type (document 02, Point 3; tests/no_arrays.py).
ghost use Rattle.std.specs.Prelude.{◌≡◌, ◌+◌, ◌*◌, ◌≤◌, ◌<◌, length};
ghost use Rattle.wire.specs.Bytes.{put};
ghost use Rattle.wire.specs.Lists.{EachBelow};
ghost use Rattle.rate_code.specs.Rate.{count_limit};
ghost use Rattle.rate_code.specs.Editions.{second_mark};
ghost use Rattle.packet.specs.Layout.{packet_bytes, frame_at, sum_at, gap_at, code_bytes};
ghost use Rattle.packet.specs.Layout.{record_count};
ghost use Rattle.packet.specs.Packet.{trailer, codes, settings_bytes};
ghost use Rattle.packet.specs.Packet.{rate_packet, sample_packet, beacon_rates, beacon_packet};

use crate::applications::{BEACON_APPLICATION, RATE_APPLICATION, of_sample};
use crate::envelope::{write_header, write_sum};
use crate::layout;
use crate::stamp::Stamp;
use boxes::{BEACONS, BOXES, TOTALS};
use rate_code::code::RateCode;
use rate_code::second::Second;
use settings::Settings;
use wire::number::BigEndian;

// The frame and the two bytes behind it.
#[tactic(auto, using(wire::proofs::Bytes::put_put), unfolding(crate::specs::Packet::trailer))]
fn write_trailer(part: &mut [u8], stamp: Stamp)
    requires { sum_at ≤ length part.old }
    ensures { part.new ≡ put part.old frame_at (trailer stamp) }
{
    stamp.frame.put(part, layout::FRAME_AT);
    stamp.mark.put(part, layout::MARK_AT);
    stamp.last.put(part, layout::LAST_AT);
}

// The counts' codes of the second edition, two bytes each, from `at` on. By place: the library's `as_chunks_mut` says
// nothing of what it leaves. That a count has a code stays a clause: the counts lie in the state, and any may be lent.
fn write_codes(part: &mut [u8], at: usize, counts: &[u32])
    requires counts_in_bounds { at + code_bytes * length counts.now ≤ length part.old }
    requires each_below { EachBelow count_limit counts.now }
    ensures { part.new ≡ put part.old at (codes second_mark counts.now) }
{
    for (i, count) in counts.iter().enumerate() {
        let code = Second::encode(*count);
        code.put(part, at + layout::CODE_BYTES * i);
    }
}

// What stands between a rate packet's codes and its frame.
#[tactic(auto, using(wire::proofs::Bytes::put_put), unfolding(crate::specs::Packet::settings_bytes))]
fn write_settings(part: &mut [u8], s: Settings, sum: u32)
    requires frame_at_in_bounds { frame_at ≤ length part.old }
    requires sum_bound { sum < 16777216 }
    ensures { part.new ≡ put part.old gap_at (settings_bytes s sum) }
{
    0u8.put(part, layout::GAP_AT);
    s.hvstep.put(part, layout::HVSTEP_AT);
    s.flags().put(part, layout::FLAGS_AT);
    s.limhi.put(part, layout::LIMHI_AT);
    wire::write::put_u24(part, layout::TABLE_SUM_AT, sum);
}

// What a rate packet is written from.
#[derive(Clone, Copy)]
pub struct RateBody<'a> {
    pub totals: &'a [u32; TOTALS],
    pub boxes: &'a [u32; BOXES],
    pub settings: Settings,
    // The table sum.
    pub sum: u32,
    ghost totals_fit: { EachBelow count_limit totals.now },
    ghost boxes_fit: { EachBelow count_limit boxes.now },
    ghost sum_fits: { sum < 16777216 },
}

// What a beacon packet is written from: the beacons, and what became of the interval's samples.
#[derive(Clone, Copy)]
pub struct BeaconBody<'a> {
    pub beacons: &'a [u32; BEACONS],
    pub eligible: u32,
    pub replaced: u32,
    pub dropped: u32,
    ghost beacons_fit: { EachBelow count_limit beacons.now },
    ghost samples_fit: { (eligible < count_limit) × (replaced < count_limit) × (dropped < count_limit) },
}

// The rate packet: eight totals and 116 boxes as codes, the settings, the table sum.
pub fn write_rate(part: &mut [u8], stamp: Stamp, body: RateBody)
    requires part_len { length part.old ≡ packet_bytes }
    requires mark_value { stamp.mark ≡ second_mark }
    ensures { part.new ≡ rate_packet stamp body.entry.totals.now body.entry.boxes.now body.entry.settings body.entry.sum }
{
    let RateBody {
        totals,
        boxes,
        settings,
        sum,
    } = body;
    write_header(part, RATE_APPLICATION, stamp.sequence, stamp.time);
    write_codes(part, layout::BODY_AT, totals);
    write_codes(part, layout::BOXES_AT, boxes);
    write_settings(part, settings, sum);
    write_trailer(part, stamp);
    write_sum(part);
}

// The sample packet that the stamp's mark numbers, with the records straight in their place.
pub fn write_samples(part: &mut [u8], stamp: Stamp, records: &[u32])
    requires { (length part.old ≡ packet_bytes) × (length records.now ≡ record_count) }
    ensures { part.new ≡ sample_packet stamp records.now }
{
    write_header(part, of_sample(stamp.mark), stamp.sequence, stamp.time);
    wire::write::put_words(part, layout::BODY_AT, records);
    write_trailer(part, stamp);
    write_sum(part);
}

// The beacon packet: fifteen counts as codes, and zeros.
pub fn write_beacon(part: &mut [u8], stamp: Stamp, body: BeaconBody)
    requires part_len { length part.old ≡ packet_bytes }
    requires mark_value { stamp.mark ≡ second_mark }
    ensures { part.new
        ≡ beacon_packet stamp (beacon_rates body.entry.beacons.now body.entry.eligible body.entry.replaced body.entry.dropped) }
{
    let BeaconBody {
        beacons,
        eligible,
        replaced,
        dropped,
    } = body;
    write_header(part, BEACON_APPLICATION, stamp.sequence, stamp.time);
    write_codes(part, layout::BODY_AT, beacons);
    write_codes(
        part,
        layout::SAMPLE_COUNTS_AT,
        &[eligible, replaced, dropped],
    );
    wire::write::put_zeros(part, layout::BEACON_END, layout::FRAME_AT);
    write_trailer(part, stamp);
    write_sum(part);
}
