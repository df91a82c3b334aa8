// The state that an image is.
ghost use Rattle.std.specs.Prelude.{◌≡◌, ◌+◌, ◌*◌, ◌≤◌, ◌<◌, length};
ghost use Rattle.image.specs.Image.{setting_of, command_of, entry_at, numbers_at, commands_at};
ghost use Rattle.image.specs.Image.{settings_in, interval_in, command_list_in, state_of};

use crate::layout::{
    ACCEPTED_AT, BEACONS_AT, BOXES_AT, ELIGIBLE_AT, ENTRIES_AT, ENTRY_BYTES, FLAGS_AT, FRAME_AT,
    HVSTEP_AT, Image, LIMHI_AT, LOAD_KIND, NEXT_AT, REACH_AT, READINGS_AT, REPLACED_AT, TAKEN_AT,
    TOTALS_AT, USED_AT, WAITERS_AT,
};
use capacity::Capacity;
use command::command::{Command, Setting};
use command_list::{CommandList, Waiting};
use counts::Counts;
use load::staging::Addresses;
use samples::selection::SampleUse;
use samples::slots::SlotUse;
use settings::Settings;
use state::State;
use state::interval::Interval;
use wire::number::BigEndian;

// A setting by its kind. A function: `Setting` stands in another crate, so no `From`, and any other kind reads as hvstep, so no
// `TryFrom`.
#[tactic(auto, unfolding(crate::specs::Image::setting_of))]
fn setting_of(kind: u8) -> Setting
    ensures { result ≡ setting_of kind }
{
    match kind {
        0 => Setting::Limhi,
        1 => Setting::Eonly,
        2 => Setting::Toferror,
        3 => Setting::Junk,
        4 => Setting::Hv,
        _ => Setting::Hvstep,
    }
}

#[tactic(auto, unfolding(crate::specs::Image::command_of))]
fn command_of(kind: u8, value: u32, y: u8) -> Command
    ensures { result ≡ command_of kind value y }
{
    if kind == LOAD_KIND {
        return Command::Load(value, y);
    }
    Command::Set(setting_of(kind), (value % 65536) as u16)
}

fn entry_at(image: &[u8], at: usize) -> Waiting
    requires { at + 6 ≤ length image.now }
    ensures { result ≡ entry_at image.now at }
{
    Waiting {
        command: command_of(image[at], u32::read(image, at + 1), image[at + 5]),
    }
}

// The 32-bit numbers from `at` on, as many as there is room for. By place: by chunks the
// proof would have to join the parts again.
pub fn words_at(image: &[u8], at: usize, out: &mut [u32])
    requires { at + 4 * length out.old ≤ length image.now }
    ensures { out.new ≡ numbers_at image.now at (length out.old) }
{
    for (i, word) in out.iter_mut().enumerate() {
        *word = u32::read(image, at + 4 * i);
    }
}

// The N 32-bit numbers from `at` on.
fn array_at<const N: usize>(image: &[u8], at: usize) -> [u32; N]
    requires { at + 4 * N ≤ length image.now }
    ensures { result ≡ numbers_at image.now at N }
{
    let mut words = [0; N];
    words_at(image, at, &mut words);
    words
}

fn commands_at(image: &[u8], at: usize) -> [Waiting; 32]
    requires { at + 192 ≤ length image.now }
    ensures { result ≡ commands_at image.now at 32 }
{
    // Each is written over, as a fresh list's: one function for both would be called with nothing.
    let filler = Waiting {
        command: Command::Set(Setting::Limhi, 0),
    };
    let mut entries = [filler; 32];
    for (i, entry) in entries.iter_mut().enumerate() {
        *entry = entry_at(image, at + ENTRY_BYTES * i);
    }
    entries
}

// The settings; other bits of the flags are ignored.
#[tactic(auto, unfolding(crate::specs::Image::settings_in))]
fn settings_in(image: &Image) -> Settings
    ensures { result ≡ settings_in image.now }
{
    let limhi = u16::read(image, LIMHI_AT);
    Settings::from_flags(image[FLAGS_AT], limhi, image[HVSTEP_AT])
}

#[tactic(auto, unfolding(crate::specs::Image::interval_in))]
fn interval_in(image: &Image) -> Interval
    ensures { result ≡ interval_in image.now }
{
    Interval {
        taken: u32::read(image, TAKEN_AT),
        counts: Counts {
            boxes: array_at(image, BOXES_AT),
            beacons: array_at(image, BEACONS_AT),
        },
        samples: SampleUse {
            slots: SlotUse {
                used: u32::read(image, USED_AT) as usize,
                replaced: u32::read(image, REPLACED_AT) as usize,
            },
            eligible: u32::read(image, ELIGIBLE_AT),
        },
        readings: u32::read(image, READINGS_AT),
        totals: array_at(image, TOTALS_AT),
    }
}

#[tactic(auto, unfolding(crate::specs::Image::command_list_in))]
fn command_list_in(image: &Image) -> CommandList
    ensures { result ≡ command_list_in image.now }
{
    CommandList {
        accepted: u32::read(image, ACCEPTED_AT) as usize,
        waiting: commands_at(image, ENTRIES_AT),
        waiters: u32::read(image, WAITERS_AT) as usize,
    }
}

// The state that an image is. An entry that is no command reads as some command: `judge::is_state` tells them apart.
// The capacity is not among the bytes.
#[tactic(auto, unfolding(crate::specs::Image::state_of))]
pub fn decode(image: &Image) -> State
    ensures { result ≡ state_of image.now }
{
    State {
        frame: u16::read(image, FRAME_AT),
        interval: interval_in(image),
        settings: settings_in(image),
        commands: command_list_in(image),
        staging: Addresses {
            next: u32::read(image, NEXT_AT),
            reach: u32::read(image, REACH_AT),
        },
        capacity: Capacity::Slots704,
    }
}
