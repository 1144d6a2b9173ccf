//! Where the cells of a row stand, by its table's columns (ECMA-335 II.22).

ghost use Rattle.std.specs.Prelude.{◌≡◌, ◌+◌, ◌≤◌, IfOk, length};
ghost use Rattle.std.specs.Option.{option_copied};
ghost use Rattle.md_schema.specs.Column.{seen_columns};
ghost use Rattle.node_model.specs.RowCells.{cell_in, cell_place, with_cell_in};
ghost use Rattle.graph_edits.specs.inner.Columns.{place_from};

use cil_base::{List, NoMemory};
use md_schema::{Column, columns, is_cell};
use node_model::{Cell, copy_cells};
use std::alloc::Global;

/// The place of the cell of a column, where these are the columns from that number on, and so many cells stand before
/// them.
#[tactic(auto, unfolding(crate::specs::inner::Columns::place_from))]
fn place_from(columns: &[Column], number: u8, place: usize, column: u8) -> Option<usize>
    requires few { number + length columns.now ≤ 9 }
    requires before { place ≤ number }
    ensures { result ≡ place_from number place (seen_columns columns.now) column }
{
    let [first, columns @ ..] = columns else {
        return None;
    };
    if !is_cell(first.kind) {
        return place_from(columns, number + 1, place, column);
    }
    if number == column {
        return Some(place);
    }
    place_from(columns, number + 1, place + 1, column)
}

/// The place among the cells of a row of the cell in a column of its table. `None` exactly where that is no cell
/// column.
#[tactic(auto, using(crate::proofs::ColumnLemmas::cell_place_is, crate::proofs::ColumnLemmas::no_cell_place))]
pub(crate) fn cell_place(table: u8, column: u8) -> Option<usize>
    ensures { result ≡ cell_place table column }
{
    let columns = columns(table)?;
    place_from(columns, 0, 0, column)
}

/// The cell in a column.
pub(crate) fn cell_in(table: u8, column: u8, cells: &[Cell]) -> Option<&Cell>
    ensures { option_copied result ≡ cell_in table column cells.now }
{
    cells.get(cell_place(table, column)?)
}

/// Equal cells, but with another one in a column.
#[tactic(auto, using(crate::proofs::ListLemmas::set_beyond))]
pub(crate) fn with_cell(
    alloc: Global,
    table: u8,
    column: u8,
    cell: &Cell,
    cells: &List<Cell>,
) -> Result<List<Cell>, NoMemory>
    ensures { IfOk result (λ new. new ≡ with_cell_in table column cell.now cells.now) }
{
    let mut new = copy_cells(alloc, cells)?;
    let Some(place) = cell_place(table, column) else {
        return Ok(new);
    };
    if place >= new.len() {
        return Ok(new);
    }
    let cell = cell.copy(alloc)?;
    new.set(place, cell);
    Ok(new)
}
