// Rules 1 to 5: what becomes of one event.
ghost use Rattle.std.specs.Prelude.{◌≡◌};
ghost use Rattle.sort.specs.Boxes.{OutcomeNames};
ghost use Rattle.sort.specs.Columns.{bounded};
ghost use Rattle.sort.specs.Sorting.{discards, located, in_matrix, outcome_of};

use crate::columns::bounded;
use crate::event::Event;
use crate::matrix;
use crate::matrix::{Cell, Matrix};
use crate::ranged::Ranged;
use crate::words::EventWords;
use settings::Settings;
use tables::Tables;

// What happened to an event. The flag is the gain bit.
#[derive(Clone, Copy)]
pub enum Outcome {
    Discarded,
    OutOfBounds(bool),
    InCell(bool, Cell),
}

// Rule 1.
pub fn discards(s: Settings, e: Event) -> bool
    ensures { result ≡ discards s e }
{
    (!e.stop & !s.eonly) | (e.error & !s.toferror)
}

// Rules 4 and 5: the cell of two columns, if both are inside the matrix.
fn located(gain: bool, mass: i32, energy: i32, matrix: &Matrix) -> Outcome
    ensures outcome { result ≡ located gain (bounded mass) (bounded energy) matrix.now }
    ensures names { OutcomeNames result }
{
    let (Some(m), Some(n)) = (bounded(mass), bounded(energy)) else {
        return Outcome::OutOfBounds(gain);
    };
    Outcome::InCell(gain, matrix::cell_at(matrix, m, n))
}

// Rules 3 to 5.
#[tactic(auto, using(crate::proofs::ColumnLaws::columns), unfolding(crate::specs::Sorting::in_matrix))]
fn in_matrix(gain: bool, w: EventWords, matrix: &Matrix) -> Outcome
    ensures outcome { result ≡ in_matrix gain w matrix.now }
    ensures names { OutcomeNames result }
{
    located(gain, w.mass_column(), w.energy_column(), matrix)
}

// Rules 1 to 5, for an event with every field in its range.
#[tactic(auto, unfolding(crate::specs::Sorting::outcome_of))]
pub fn outcome_of(s: Settings, tables: &Tables, e: Ranged) -> Outcome
    ensures outcome { result ≡ outcome_of s tables.now e }
    ensures names { OutcomeNames result }
{
    if discards(s, e.event) {
        return Outcome::Discarded;
    }
    in_matrix(
        e.event.gain(),
        EventWords::of(tables, e),
        matrix::matrix_of(tables),
    )
}
