// The matrix: 128 by 128 cells of three bytes, the part of the tables from address 8000 on.
ghost use Rattle.std.specs.Prelude.{◌≡◌, ◌≤◌, IfSome};
ghost use Rattle.boxes.specs.Boxes.{box_count, beacon_count, junk_box};
ghost use Rattle.sort.specs.Boxes.{CellNames};
ghost use Rattle.sort.specs.Matrix.{matrix_of, cell_of, box_used, beacon_used};

use boxes::{JUNK_BOX, LAST_BEACON, LAST_BOX};
use tables::{MATRIX_END, MATRIX_START, Tables};

// Three bytes a cell.
pub type Matrix = [u8; MATRIX_END - MATRIX_START];

// What a cell says: a rate box from 7 to 116, the priority, and a beacon from 1 to 12 if it names one.
#[derive(Clone, Copy)]
pub struct Cell {
    pub ratebox: u8,
    pub priority: bool,
    pub beacon: Option<u8>,
}

pub const COLUMNS: usize = 128;

// A box outside 7 to 116 is the junk box.
fn box_used(b: u8) -> u8
    ensures { (result ≡ box_used b) × (junk_box ≤ result) × (result ≤ box_count) }
{
    match b {
        JUNK_BOX..=LAST_BOX => b,
        _ => JUNK_BOX,
    }
}

// A beacon number of 0 or over 12 names none.
fn beacon_used(n: u8) -> Option<u8>
    ensures beacon { result ≡ beacon_used n }
    ensures names { IfSome result (λ b. (1 ≤ b) × (b ≤ beacon_count)) }
{
    match n {
        1..=LAST_BEACON => Some(n),
        _ => None,
    }
}

// The matrix in the tables.
pub fn matrix_of(tables: &Tables) -> &Matrix
    ensures { result.now ≡ matrix_of tables.now }
{
    let Some(matrix) = tables[MATRIX_START..MATRIX_END].as_array() else {
        unreachable!()
    };
    matrix
}

// The cell of a mass and an energy column.
#[tactic(auto, unfolding(crate::specs::Matrix::cell_of))]
pub fn cell_at(matrix: &Matrix, mass: usize, energy: usize) -> Cell
    requires mass_bound { (mass ≤ 127) × (energy ≤ 127) }
    ensures cell { result ≡ cell_of matrix.now mass energy }
    ensures names { CellNames result }
{
    let at = 3 * (COLUMNS * mass + energy);
    let first = matrix[at];
    Cell {
        ratebox: box_used(first % 128),
        priority: 128 <= first,
        beacon: beacon_used(matrix[at + 1]),
    }
}
