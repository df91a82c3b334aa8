// Sorts some events and places 710 records, and prints what becomes of them. The expected output is worked out
// from the papers by other means.
#![tactic(auto)]

ghost use Rattle.std.specs.Prelude.{◌≤◌, ◌<◌, length};

use boxes::{BEACONS, BOXES};
use counts::Counts;
use sample_record::Sample;
use samples::slots::SlotUse;
use settings::Settings;
use sort::event::Event;
use sort::ranged::Ranged;
use tables::{TABLE_BYTES, Tables};

// Each event: t, high, low, flags (FLG0 1, FLG1 2, error 4, valid stop 8), settings (Eonly 1, toferror 2, junk 4).
const EVENTS: [[u16; 5]; 16] = [
    [20, 100, 0, 8, 0], // in a cell, gain 0
    [20, 100, 0, 0, 0], // no valid stop: discarded
    [20, 100, 0, 0, 1], // the same with Eonly
    [20, 100, 0, 12, 0], // error: discarded
    [20, 100, 0, 15, 2], // the same with toferror, and both flags
    [5, 2047, 0, 8, 0], // last channel of gain 0: mass column over 127
    [5, 2048, 900, 8, 4], // first of gain 1, with junk
    [5, 2048, 0, 8, 4], // gain 1: mass column below 0, with junk
    [390, 10, 0, 8, 4], // energy column below 0, with junk
    [390, 10, 0, 8, 0], // the same without junk: not eligible
    [300, 4095, 2047, 8, 4], // the last channels
    [511, 0, 0, 8, 0], // the last time of flight
    [512, 0, 0, 8, 0], // t out of its range
    [0, 4096, 0, 8, 0], // high out of its range
    [0, 0, 2048, 8, 0], // low out of its range
    [40, 1, 7, 9, 4], // another cell
];

// A word of the tables for these cases: energies and times of flight rise by a fixed step, matrix cells go
// through all boxes and beacons.
fn case_word(i: usize) -> u32
    requires { i < 20995 }
    ensures { result < 16777216 }
{
    if i < 2048 {
        return (524288 + 300 * i) as u32;
    }
    if i < 4096 {
        return (500000 + 300 * (i - 2048)) as u32;
    }
    if i < 20480 {
        return (65536 * (i * 7 % 256) + 256 * (i % 16) + 170) as u32;
    }
    if i < 20992 {
        return (500000 + 1000 * (i - 20480)) as u32;
    }
    if i == 20993 { 600000 } else { 524288 }
}

// A word goes by its number, of which it is made.
fn fill(tables: &mut Tables) {
    for i in 0..20995 {
        wire::write::put_u24(tables, 3 * i, case_word(i));
    }
}

fn event_of(t: u16, high: u16, low: u16, flags: u16) -> Event {
    Event {
        t,
        high,
        low,
        flg0: flags & 1 != 0,
        flg1: flags & 2 != 0,
        error: flags & 4 != 0,
        stop: flags & 8 != 0,
    }
}

fn settings_of(bits: u16) -> Settings {
    Settings {
        limhi: 500,
        eonly: bits & 1 != 0,
        toferror: bits & 2 != 0,
        junk: bits & 4 != 0,
        hv: false,
        hvstep: 0,
    }
}

// The numbers, counted from 1, of the counts that are not 0.
fn counted_numbers(rt: &HostRuntime, counts: &[u32]) {
    for (i, count) in counts.iter().enumerate() {
        if *count != 0 {
            let _ = print!(rt; " {}", i as u64 + 1);
        }
    }
}

// Box, priority, whether it is eligible, the record, the boxes and the beacons that it counts in.
fn show_sorted(rt: &HostRuntime, s: Settings, tables: &Tables, e: Ranged) {
    let o = sort::sorting::outcome_of(s, tables, e);
    // Written out: by `Counts::default()` the proof did not close.
    let mut c = Counts {
        boxes: [0u32; BOXES],
        beacons: [0u32; BEACONS],
    };
    c.count(o);
    let priority = u8::from(samples::priority_of(o));
    let eligible = u8::from(samples::eligible(s.junk, o));
    let _ = print!(rt; " {} {priority} {eligible}", samples::box_of(o));
    let _ = print!(rt; " {:08x} boxes", samples::record_of(e, o));
    counted_numbers(rt, &c.boxes);
    let _ = print!(rt; " beacons");
    counted_numbers(rt, &c.beacons);
}

fn show_event(rt: &HostRuntime, tables: &Tables, event: &[u16; 5]) {
    let [t, high, low, flags, settings] = *event;
    let event = event_of(t, high, low, flags);
    let _ = print!(rt; "event");
    if event.in_range() {
        show_sorted(rt, settings_of(settings), tables, Ranged { event });
    } else {
        let _ = print!(rt; " 2");
    }
    let _ = println!(rt; "");
}

fn show_events(rt: &HostRuntime, tables: &Tables) {
    for event in &EVENTS {
        show_event(rt, tables, event);
    }
}

// The record case of document 01, packed and unpacked.
fn show_record(rt: &HostRuntime) {
    let word = sample_record::pack(Sample {
        t: 300,
        channel: 1000,
        flg0: false,
        flg1: false,
        gain: false,
        error: false,
        ratebox: 60,
        priority: true,
    });
    let s = Sample::from(word);
    let (flg0, flg1) = (u8::from(s.flg0), u8::from(s.flg1));
    let (gain, error, priority) = (u8::from(s.gain), u8::from(s.error), u8::from(s.priority));
    let _ = print!(rt; "record {word:08x} {} {} {flg0} {flg1}", s.t, s.channel);
    let _ = println!(rt; " {gain} {error} {} {priority}", s.ratebox);
}

// Records 1 to 710, every other one of priority 1, from the first on.
fn place_all(rt: &HostRuntime, slots: &mut [u32], limhi: usize)
    requires { limhi ≤ length slots.old }
{
    let mut kept = SlotUse {
        used: 0,
        replaced: 0,
    };
    for record in 1..711 {
        kept.place(slots, limhi, record, record % 2 == 1);
    }
    let _ = print!(rt; " {} {}", kept.used, kept.replaced);
}

fn show_slots(rt: &HostRuntime, slots: &[u32]) {
    for slot in slots {
        let _ = print!(rt; " {slot}");
    }
}

fn show_places(rt: &HostRuntime, limhi: usize)
    requires { limhi ≤ 704 }
{
    let mut slots = [0u32; 704];
    let _ = print!(rt; "slots");
    place_all(rt, &mut slots, limhi);
    show_slots(rt, &slots[0..5]);
    show_slots(rt, &slots[700..704]);
    let _ = println!(rt; "");
}

fn main(rt: HostRuntime) {
    let mut tables = [0u8; TABLE_BYTES];
    fill(&mut tables);
    show_record(&rt);
    show_events(&rt, &tables);
    show_places(&rt, 0);
    show_places(&rt, 1);
    show_places(&rt, 704);
}
