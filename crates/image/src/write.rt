// The image of a state.
ghost use Rattle.std.specs.Prelude.{◌≡◌, ◌+◌, ◌*◌, ◌≤◌, ◌<◌, length};
ghost use Rattle.wire.specs.Bytes.{put};
ghost use Rattle.image.specs.Layout.{taken_at, boxes_at, readings_at, limhi_at, accepted_at};
ghost use Rattle.image.specs.Image.{six, two, command_list_bytes, command_bytes, commands_bytes, low, settings_image};
ghost use Rattle.image.specs.Image.{counts_bytes, readings_bytes, interval_bytes, image_of};

use crate::layout::{
    ACCEPTED_AT, BEACONS_AT, BOXES_AT, ELIGIBLE_AT, ENTRIES_AT, ENTRY_BYTES, FLAGS_AT, FRAME_AT,
    HVSTEP_AT, Image, LIMHI_AT, LOAD_KIND, NEXT_AT, READINGS_AT, TAKEN_AT, TOTALS_AT, USED_AT,
};
use command::command::Command;
use command_list::{CommandList, Waiting};
use counts::Counts;
use settings::Settings;
use state::State;
use state::interval::Interval;
use wire::number::BigEndian;
use wire::write::put_words;

// The low 32 bits: no method of the library cuts a number off, and `as` has to lose nothing.
fn low(n: usize) -> u32
    ensures { result ≡ low n }
{
    (n % 4294967296) as u32
}

// The six bytes of an entry, by their place in the image: the library's `as_chunks_mut` says nothing of what it leaves.
#[tactic(auto, using(wire::proofs::Bytes::put_put))]
fn put_six(image: &mut [u8], at: usize, kind: u8, value: u32, y: u8)
    requires { at + 6 ≤ length image.old }
    ensures { image.new ≡ put image.old at (six kind value y) }
{
    kind.put(image, at);
    value.put(image, at + 1);
    y.put(image, at + 5);
}

#[tactic(auto, using(wire::proofs::Bytes::put_put))]
fn put_two(image: &mut [u8], at: usize, a: u32, b: u32)
    requires { at + 8 ≤ length image.old }
    ensures { image.new ≡ put image.old at (two a b) }
{
    a.put(image, at);
    b.put(image, at + 4);
}

// A setting's kind is its place among the settings.
#[tactic(auto, unfolding(crate::specs::Image::command_bytes))]
fn put_command(image: &mut [u8], at: usize, c: Command)
    requires { at + 6 ≤ length image.old }
    ensures { image.new ≡ put image.old at (command_bytes c) }
{
    match c {
        Command::Set(setting, n) => {
            put_six(image, at, setting as u8, u32::from(n), 0);
        }
        Command::Load(a, y) => {
            put_six(image, at, LOAD_KIND, a, y);
        }
    }
}

fn put_commands(image: &mut [u8], at: usize, waiting: &[Waiting; 32])
    requires { at + 192 ≤ length image.old }
    ensures { image.new ≡ put image.old at (commands_bytes waiting.now) }
{
    for (i, entry) in waiting.iter().enumerate() {
        put_command(image, at + ENTRY_BYTES * i, entry.command);
    }
}

#[tactic(auto, using(wire::proofs::Bytes::put_put))]
fn put_settings(image: &mut Image, s: Settings)
    ensures { image.new ≡ put image.old limhi_at (settings_image s) }
{
    s.limhi.put(image, LIMHI_AT);
    s.flags().put(image, FLAGS_AT);
    s.hvstep.put(image, HVSTEP_AT);
}

#[tactic(auto, using(wire::proofs::Bytes::put_put, wire::proofs::Bytes::length_words))]
fn put_counts(image: &mut Image, c: &Counts)
    ensures { image.new ≡ put image.old boxes_at (counts_bytes c.now) }
{
    put_words(image, BOXES_AT, &c.boxes);
    put_words(image, BEACONS_AT, &c.beacons);
}

#[tactic(auto, using(wire::proofs::Bytes::put_put))]
fn put_readings(image: &mut Image, readings: u32, totals: &[u32; 8])
    ensures { image.new ≡ put image.old readings_at (readings_bytes readings totals.now) }
{
    readings.put(image, READINGS_AT);
    put_words(image, TOTALS_AT, totals);
}

#[tactic(auto, using(wire::proofs::Bytes::put_put, crate::proofs::Lengths::length_to_counts, crate::proofs::Lengths::length_to_use))]
fn put_interval(image: &mut Image, i: Interval)
    ensures { image.new ≡ put image.old taken_at (interval_bytes i) }
{
    i.taken.put(image, TAKEN_AT);
    put_counts(image, &i.counts);
    put_two(
        image,
        USED_AT,
        low(i.samples.slots.used),
        low(i.samples.slots.replaced),
    );
    put_readings(image, i.readings, &i.totals);
}

#[tactic(auto, using(wire::proofs::Bytes::put_put))]
fn put_command_list(image: &mut Image, o: &CommandList)
    ensures { image.new ≡ put image.old accepted_at (command_list_bytes o.now) }
{
    put_two(image, ACCEPTED_AT, low(o.accepted), low(o.waiters));
    put_commands(image, ENTRIES_AT, &o.waiting);
}

// The image of a state, whatever the image was.
pub fn encode(image: &mut Image, s: State)
    ensures { image.new ≡ image_of s }
{
    s.frame.put(image, FRAME_AT);
    put_interval(image, s.interval);
    put_settings(image, s.settings);
    put_command_list(image, &s.commands);
    put_two(image, NEXT_AT, s.staging.next, s.staging.reach);
    s.interval.samples.eligible.put(image, ELIGIBLE_AT);
}
