ghost use Rattle.std.specs.Prelude.{◌≡◌, ◌<◌, ◌+◌, ◌∷◌, ◌==◌, [], length, IfSome, MatchOption};
ghost use Rattle.std.specs.List.{filter};
ghost use Rattle.std.specs.Option.{option_map, option_to_list};
ghost use Rattle.md_schema.specs.Column.{seen_column, seen_columns};
ghost use Rattle.node_model.specs.KeyKinds.{table_columns};
ghost use Rattle.node_model.specs.PlacedCells.{edit_cells, row_placed, set_placed};
ghost use Rattle.node_model.specs.RowFaults.{cell_columns};
ghost use Rattle.graph_edits.specs.inner.CellsLeft.{cell_columns_from, cells_left, seen_placed};

use md_schema::{Column, ColumnKind, columns, is_cell};
use node_model::{Cell, Edit};
use std::slice;

/// A cell of an edit, with the column that it is for, by its number among all columns of the table.
#[derive(Clone, Copy)]
pub(crate) struct ColumnCell<'a> {
    pub table: u8,
    pub column: usize,
    pub kind: ColumnKind,
    pub cell: &'a Cell,
}

/// The cells of an edit that are still to be looked at. They are for the cell columns of the table from that number on.
#[derive(Clone, Copy)]
pub(crate) struct CellsLeft<'a> {
    table: u8,
    columns: &'a [Column],
    number: usize,
    cells: &'a [Cell],
}

/// The columns of a table. None of another number.
pub(crate) fn table_columns(table: u8) -> &'static [Column]
    ensures { seen_columns result.now ≡ table_columns table }
{
    match columns(table) {
        Some(columns) => columns,
        None => &[],
    }
}

/// The first cell column from a number on, with its own number.
pub(crate) fn next_cell_column(columns: &[Column], from: usize) -> Option<(usize, Column)>
    ensures first { MatchOption result (cell_columns_from from (seen_columns columns.now) ≡ [])
        (λ found. cell_columns_from from (seen_columns columns.now)
        ≡ (found.0, seen_column found.1) ∷ cell_columns_from (found.0 + 1) (seen_columns columns.now)) }
    ensures within { IfSome result (λ found. found.0 < length columns.now) }
{
    for number in from..columns.len() {
        let column = columns[number];
        if is_cell(column.kind) {
            return Some((number, column));
        }
    }
    None
}

impl<'a> CellsLeft<'a> {
    /// The first of them, and the others.
    pub(crate) fn split_first(&self) -> Option<(ColumnCell<'a>, CellsLeft<'a>)>
        ensures { MatchOption result (cells_left self.now ≡ [])
            (λ found. cells_left self.now ≡ seen_placed found.0 ∷ cells_left found.1) }
    {
        let (number, column) = next_cell_column(self.columns, self.number)?;
        let [cell, cells @ ..] = self.cells else {
            return None;
        };
        let placed = ColumnCell {
            table: self.table,
            column: number,
            kind: column.kind,
            cell,
        };
        let left = CellsLeft {
            table: self.table,
            columns: self.columns,
            number: number + 1,
            cells,
        };
        Some((placed, left))
    }
}

/// The cells of a new row, as far as the table has cell columns.
pub(crate) fn row_placed(table: u8, cells: &[Cell]) -> CellsLeft<'_>
    ensures { cells_left result ≡ row_placed table cells.now }
{
    CellsLeft {
        table,
        columns: table_columns(table),
        number: 0,
        cells,
    }
}

/// The column of a table with this number, if it is a cell column.
pub(crate) fn cell_column(table: u8, number: usize) -> Option<Column>
    ensures only { filter (λ c. c.0 == number) (cell_columns table)
        ≡ option_to_list (option_map (λ column. (number, seen_column column)) result) }
    ensures first { IfSome result (λ column. cell_columns_from number (table_columns table)
        ≡ (number, seen_column column) ∷ cell_columns_from (number + 1) (table_columns table)) }
{
    let columns = table_columns(table);
    if number >= columns.len() {
        return None;
    }
    let column = columns[number];
    if is_cell(column.kind) {
        Some(column)
    } else {
        None
    }
}

/// A cell for one column, if that is a cell column.
fn set_cell(table: u8, number: usize, cell: &Cell) -> CellsLeft<'_>
    ensures { cells_left result ≡ set_placed table number cell.now }
{
    match cell_column(table, number) {
        Some(_) => CellsLeft {
            table,
            columns: table_columns(table),
            number,
            cells: slice::from_ref(cell),
        },
        None => no_cells(),
    }
}

/// No cells.
fn no_cells<'a>() -> CellsLeft<'a>
    ensures { cells_left result ≡ [] }
{
    CellsLeft {
        table: 0,
        columns: &[],
        number: 0,
        cells: &[],
    }
}

/// The cells of an edit.
pub(crate) fn edit_cells(edit: &Edit) -> CellsLeft<'_>
    ensures { cells_left result ≡ edit_cells edit.now }
{
    match edit {
        Edit::Set {
            token,
            column,
            cell,
        } => set_cell(token.table, *column as usize, cell),
        Edit::Add { table, cells, .. } | Edit::Insert { table, cells, .. } => {
            row_placed(*table, cells.as_slice())
        }
        _ => no_cells(),
    }
}
