//! The rows of the tables as numbers (ECMA-335 II.22).

ghost use Rattle.std.specs.Prelude.{◌≡◌, ℕ, List, map, IfOk};
ghost use Rattle.std.specs.List.{enumerate_from, flat_map};
ghost use Rattle.std.specs.Option.{option_copied};
ghost use Rattle.write_tables.specs.Contents.{rows_contents, table_contents, table_range};
ghost use Rattle.write_tables.specs.WrittenRows.{table_numbers};
ghost use Rattle.write_tables.specs.inner.ColumnCell.{column_cell};
ghost use Rattle.write_tables.specs.inner.Gathered.{Gathers};
ghost use Rattle.write_tables.specs.inner.PlacedColumns.{held_contents, held_number, held_numbers, held_row};

use crate::cells::cells_held;
use crate::column::put_column;
use crate::placed::Placed;
use crate::table_column::{TableColumn, placed_columns};
use cil_base::{List, NoMemory, Token};
use md_heaps::HeapBuilder;
use node_model::Cell;
use std::alloc::Global;
use write_plan::Plan;

/// The cell of a row in a column, out of the row's cells.
fn cell_in<'a>(cells: &'a [Cell], column: &TableColumn) -> Option<&'a Cell>
    ensures { option_copied result ≡ column_cell column.now cells.now }
{
    cells.get(column.cell?)
}

/// Puts what the row at a place, with these cells, has in a column into the heaps. Its number in the column.
fn put_held(
    alloc: Global,
    plan: &Plan,
    heaps: &mut HeapBuilder,
    column: &TableColumn,
    row: Token,
    cells: &[Cell],
    place: usize,
) -> Result<u32, NoMemory>
    ensures { IfOk result (Gathers ℕ heaps.old heaps.new (held_contents plan.now row cells.now column.now)
        (λ later. held_number plan.now later place row cells.now column.now)) }
{
    let cell = cell_in(cells, column);
    let placed = column.number_at(place);
    put_column(alloc, plan, heaps, row, column.kind, cell, placed)
}

/// Puts what the row at a place has in its columns into the heaps, column by column. Its numbers.
fn put_row(
    alloc: Global,
    plan: &Plan,
    heaps: &mut HeapBuilder,
    columns: &[TableColumn],
    row: Token,
    place: usize,
) -> Result<List<u32>, NoMemory>
    ensures { IfOk result (Gathers (List ℕ) heaps.old heaps.new (held_row plan.now columns.now row)
        (λ later. held_numbers plan.now later columns.now (place, row))) }
{
    let cells = cells_held(plan, row);
    let mut numbers = List::new(alloc);
    for column in columns {
        let number = put_held(alloc, plan, heaps, column, row, cells, place)?;
        numbers.push(number)?;
    }
    Ok(numbers)
}

/// Puts what rows have in their columns into the heaps, row by row. Their numbers.
fn put_rows(
    alloc: Global,
    plan: &Plan,
    heaps: &mut HeapBuilder,
    columns: &[TableColumn],
    rows: &[Token],
) -> Result<List<List<u32>>, NoMemory>
    ensures { IfOk result (Gathers (List (List ℕ)) heaps.old heaps.new
        (flat_map (held_row plan.now columns.now) rows.now)
        (λ later. map (held_numbers plan.now later columns.now) (enumerate_from 0 rows.now))) }
{
    let mut all = List::new(alloc);
    for row in rows {
        let place = all.len();
        let numbers = put_row(alloc, plan, heaps, columns, *row, place)?;
        all.push(numbers)?;
    }
    Ok(all)
}

/// Puts what the rows of a table have in their columns into the heaps, row by row. Their numbers.
fn put_table(
    alloc: Global,
    plan: &Plan,
    placed: &Placed,
    heaps: &mut HeapBuilder,
    table: u8,
) -> Result<List<List<u32>>, NoMemory>
    ensures { IfOk result (Gathers (List (List ℕ)) heaps.old heaps.new (table_contents plan.now table)
        (λ later. table_numbers plan.now placed.now later table)) }
{
    let columns = placed_columns(alloc, plan, placed, table)?;
    let rows = plan.kept(table);
    let numbers = put_rows(alloc, plan, heaps, columns.as_slice(), rows.as_slice())?;
    Ok(numbers)
}

/// Puts what the rows of all tables have in their columns into the heaps, table by table. Their numbers.
pub(crate) fn put_tables(
    alloc: Global,
    plan: &Plan,
    placed: &Placed,
    heaps: &mut HeapBuilder,
) -> Result<List<List<List<u32>>>, NoMemory>
    ensures { IfOk result (Gathers (List (List (List ℕ))) heaps.old heaps.new (rows_contents plan.now)
        (λ later. map (table_numbers plan.now placed.now later) table_range)) }
{
    let mut all = List::new(alloc);
    for table in 0..64u8 {
        let numbers = put_table(alloc, plan, placed, heaps, table)?;
        all.push(numbers)?;
    }
    Ok(all)
}
