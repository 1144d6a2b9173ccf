//! The columns of a table, each with all that its rows need (ECMA-335 II.22).

ghost use Rattle.std.specs.Prelude.{◌≡◌, ◌<◌, length, slice_get, IfOk};
ghost use Rattle.std.specs.List.{count_by};
ghost use Rattle.std.specs.Option.{unwrap_or};
ghost use Rattle.md_schema.specs.Column.{is_cell_kind, seen_columns};
ghost use Rattle.md_schema.specs.declared.column.Column.{Column};
ghost use Rattle.node_model.specs.KeyKinds.{table_columns};
ghost use Rattle.write_tables.specs.WrittenRows.{numbers_by_place};
ghost use Rattle.write_tables.specs.inner.PlacedColumns.{cell_place_among, placed_columns};

use crate::placed::Placed;
use crate::starts::run_starts;
use cil_base::{List, NoMemory};
use md_schema::{Column, ColumnKind, columns, is_cell, table};
use std::alloc::Global;
use write_plan::Plan;

/// A column of a table that is written.
#[derive(Drop)]
pub(crate) struct TableColumn {
    pub kind: ColumnKind,
    /// The place of its cell among the cells of a row, where it has one.
    pub cell: Option<usize>,
    /// The numbers of the rows by their places, where they go by these.
    pub numbers: List<u32>,
}

/// The columns of a table; another number has none.
fn table_columns(table: u8) -> &'static [Column]
    ensures { seen_columns result.now ≡ table_columns table }
{
    match columns(table) {
        Some(columns) => columns,
        None => &[],
    }
}

/// How many of these columns have cells.
fn cell_count(columns: &[Column]) -> usize
    ensures { result ≡ count_by (λ (column : Column). is_cell_kind column.kind) columns.now }
{
    columns.iter().filter(|column| is_cell(column.kind)).count()
}

/// The place among the cells of a row of the one in the column of that number. `None` where the column has none.
fn cell_place(columns: &[Column], number: usize) -> Option<usize>
    requires { number < length columns.now }
    ensures { result ≡ cell_place_among (seen_columns columns.now) number }
{
    if is_cell(columns[number].kind) {
        Some(cell_count(&columns[..number]))
    } else {
        None
    }
}

/// The numbers of the rows of a table in a column of this kind, where they go by the places of the rows.
fn numbers_by_place(
    alloc: Global,
    plan: &Plan,
    placed: &Placed,
    table: u8,
    kind: ColumnKind,
) -> Result<List<u32>, NoMemory>
    ensures { IfOk result (λ numbers. numbers ≡ numbers_by_place plan.now placed.now table kind) }
{
    match kind {
        ColumnKind::Start(owned) => run_starts(alloc, plan, table, owned),
        ColumnKind::Rva => {
            if table == table::METHOD_DEF {
                placed.bodies.copy()
            } else {
                placed.field_bytes.copy()
            }
        }
        ColumnKind::Offset => placed.resources.copy(),
        _ => Ok(List::new(alloc)),
    }
}

/// These columns of a table, each with all that its rows need.
fn placed_among(
    alloc: Global,
    plan: &Plan,
    placed: &Placed,
    table: u8,
    columns: &[Column],
) -> Result<List<TableColumn>, NoMemory>
    ensures { IfOk result (λ all. all ≡ placed_columns plan.now placed.now table (seen_columns columns.now)) }
{
    let mut all = List::new(alloc);
    for number in 0..columns.len() {
        let kind = columns[number].kind;
        let cell = cell_place(columns, number);
        let numbers = numbers_by_place(alloc, plan, placed, table, kind)?;
        all.push(TableColumn {
            kind,
            cell,
            numbers,
        })?;
    }
    Ok(all)
}

/// The columns of a table, each with all that its rows need.
pub(crate) fn placed_columns(
    alloc: Global,
    plan: &Plan,
    placed: &Placed,
    table: u8,
) -> Result<List<TableColumn>, NoMemory>
    ensures { IfOk result (λ all. all ≡ placed_columns plan.now placed.now table (table_columns table)) }
{
    placed_among(alloc, plan, placed, table, table_columns(table))
}

impl TableColumn {
    /// The number of the row at a place, where it goes by that, and else 0.
    pub fn number_at(&self, place: usize) -> u32
        ensures { result ≡ unwrap_or (slice_get self.now.numbers place) 0 }
    {
        match self.numbers.as_slice().get(place) {
            Some(number) => *number,
            None => 0,
        }
    }
}
