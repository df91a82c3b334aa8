// The table words of an event, and the columns that they make.
ghost use Rattle.std.specs.Prelude.{◌≡◌, ◌<◌};
ghost use Rattle.sort.specs.Columns.{mass_column, energy_column, u_of};
ghost use Rattle.sort.specs.Sorting.{Words, WordsBelow, event_words};

use crate::columns;
use crate::ranged::Ranged;
use std::marker::Model;
use tables::{Tables, word};

// The energy word and its offset, the time-of-flight word and its offset, each of 24 bits.
#[derive(Clone, Copy)]
pub struct EventWords {
    energy: u32,
    k: u32,
    flight: u32,
    ktof: u32,
}

impl Model for EventWords {
    ghost Value = { Words };

    ghost view = { λ w. record { energy = w.energy; k = w.k; flight = w.flight; ktof = w.ktof } };

    ghost inverse = { λ w. record { energy = w.energy; k = w.k; flight = w.flight; ktof = w.ktof } };

    ghost invariant = { λ w. WordsBelow 16777216 (record { energy = w.energy; k = w.k; flight = w.flight; ktof = w.ktof }) };
}

impl EventWords {
    // Of four words of 24 bits.
    pub fn new(energy: u32, k: u32, flight: u32, ktof: u32) -> EventWords
        requires { (energy < 16777216) × (k < 16777216) × (flight < 16777216) × (ktof < 16777216) }
        ensures { result ≡ record { energy = energy; k = k; flight = flight; ktof = ktof } }
    {
        EventWords {
            energy,
            k,
            flight,
            ktof,
        }
    }

    // Rule 2, and T of rule 3: the words, by the gain.
    #[tactic(auto, unfolding(crate::specs::Sorting::event_words))]
    pub fn of(tables: &Tables, e: Ranged) -> EventWords
        ensures { result ≡ event_words tables.now e }
    {
        let (table, offset) = if e.event.gain() {
            (tables::LOW_GAIN, tables::KLO)
        } else {
            (tables::HIGH_GAIN, tables::KHI)
        };
        EventWords::new(
            word(tables, table + usize::from(e.event.channel())),
            word(tables, offset),
            word(tables, tables::TIME_OF_FLIGHT + usize::from(e.event.t)),
            word(tables, tables::KTOF),
        )
    }

    pub fn mass_column(&self) -> i32
        ensures { result ≡ mass_column (u_of self.now.energy self.now.k self.now.flight self.now.ktof) }
    {
        columns::mass_column(self.energy, self.k, self.flight, self.ktof)
    }

    pub fn energy_column(&self) -> i32
        ensures { result ≡ energy_column self.now.flight self.now.ktof }
    {
        columns::energy_column(self.flight, self.ktof)
    }
}
