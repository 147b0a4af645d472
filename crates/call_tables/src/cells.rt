//! What was last written of each key of one service, by the key's index.

ghost use Rattle.std.specs.Prelude.{◌≡◌, ◌<◌, ℕ, [], length, OnOk};
ghost use Rattle.call_tables.specs.Cells.{cell_in, cell_after};

use std::alloc::{AllocError, Global};
use std::marker::Model;

/// The value of a key and the number of the call that wrote it.
#[derive(Clone, Copy)]
pub struct Cell {
    pub value: u64,
    pub writer: u32,
}

/// A key that was never written.
pub(crate) const OPENING: Cell = Cell {
    value: 0,
    writer: 0,
};

/// The cells of one service, by the index of the key; there is none behind the last one that was
/// written.
#[derive(Drop)]
pub struct Row {
    cells: Vec<Cell>,
}

impl Model for Row {
    ghost use Rattle.std.specs.Prelude.{List};
    ghost use Rattle.call_tables.specs.declared.cells.Cell.{Cell};

    ghost Value = { List Cell };

    ghost view = { λ r. r.cells.items };
}

impl Row {
    /// A row without cells.
    pub(crate) fn new(alloc: Global) -> Row
        ensures { result ≡ [] }
    {
        Row {
            cells: Vec::new(alloc),
        }
    }

    /// What the row holds of an index.
    pub(crate) fn cell(&self, index: usize) -> Cell
        ensures { result ≡ cell_in self.now index }
    {
        if index < self.cells.len() {
            self.cells[index]
        } else {
            OPENING
        }
    }

    /// Puts a cell at an index. An `Err` is want of memory.
    pub(crate) fn put(&mut self, index: u16, cell: Cell) -> Result<(), AllocError>
        ensures { OnOk result ((at : ℕ) → cell_in self.new at ≡ cell_after self.old index cell at) }
    {
        put_cell(&mut self.cells, index as usize, cell)
    }
}

// Puts a cell at an index.
#[tactic(auto, using(crate::proofs::Putting::cell_through))]
fn put_cell(cells: &mut Vec<Cell>, index: usize, cell: Cell) -> Result<(), AllocError>
    requires small { index < 65536 }
    ensures { OnOk result ((at : ℕ) → cell_in cells.new.items at ≡ cell_after cells.old.items index cell at) }
{
    reach(cells, index)?;
    cells[index] = cell;
    Ok(())
}

// Makes cells reach to an index.
fn reach(cells: &mut Vec<Cell>, index: usize) -> Result<(), AllocError>
    requires small { index < 65536 }
    ensures same { OnOk result ((at : ℕ) → cell_in cells.new.items at ≡ cell_in cells.old.items at) }
    ensures reached { OnOk result (index < length cells.new.items) }
{
    if index < cells.len() {
        return Ok(());
    }
    cells.resize(index + 1, OPENING)
}
