ghost use Rattle.std.specs.Prelude.{ℕ, ◌≡◌, ◌≤◌, ◌++◌, length, slice_index, IfOk, OnOk};
ghost use Rattle.md_schema.specs.Column.{seen_columns};
ghost use Rattle.md_write.specs.TableRows.{AreRowsFor, rows_at};
ghost use Rattle.md_write.specs.TablesStream.{all_row_bytes, columns_at, table_bytes};
ghost use Rattle.md_write.specs.inner.Widths.{bytes_in_widths, widths_of};

use crate::number::push_number;
use cil_base::{Bytes, List, NoMemory};
use md_schema::{Column, Counts, columns, width};
use std::alloc::Global;

/// The columns of a table, none where there is no such table.
fn columns_at(table: u8) -> &'static [Column]
    ensures { seen_columns result.now ≡ columns_at table }
{
    match columns(table) {
        Some(columns) => columns,
        None => &[],
    }
}

/// The bytes of each column.
fn widths(alloc: Global, columns: &[Column], counts: &Counts) -> Result<Bytes, NoMemory>
    ensures widths { IfOk result (λ widths. widths ≡ widths_of counts.now columns.now) }
    ensures few { IfOk result (λ widths. (place : ℕ) → slice_index widths place ≤ 4) }
{
    let mut widths = List::new(alloc);
    for column in columns {
        widths.push(width(column.kind, counts))?;
    }
    Ok(widths)
}

/// Adds numbers, each in its width.
fn push_row(out: &mut Bytes, widths: &[u8], numbers: &[u32]) -> Result<(), NoMemory>
    requires same { length numbers.now ≡ length widths.now }
    requires few { (place : ℕ) → slice_index widths.now place ≤ 4 }
    ensures { OnOk result (out.new ≡ out.old ++ bytes_in_widths widths.now numbers.now) }
{
    for place in 0..widths.len() {
        push_number(out, numbers[place], widths[place])?;
    }
    Ok(())
}

/// Adds the rows of a table.
fn push_table(
    out: &mut Bytes,
    counts: &Counts,
    table: u8,
    rows: &[List<u32>],
) -> Result<(), NoMemory>
    requires { AreRowsFor counts.now table rows.now }
    ensures { OnOk result (out.new ≡ out.old ++ table_bytes counts.now table rows.now) }
{
    let widths = widths(out.allocator(), columns_at(table), counts)?;
    for row in rows {
        push_row(out, widths.as_slice(), row.as_slice())?;
    }
    Ok(())
}

/// Adds the rows of all tables.
pub(crate) fn push_rows(
    out: &mut Bytes,
    counts: &Counts,
    tables: &[List<List<u32>>],
) -> Result<(), NoMemory>
    requires all { length tables.now ≡ 64 }
    requires fit { (table : ℕ) → AreRowsFor counts.now table (rows_at tables.now table) }
    ensures { OnOk result (out.new ≡ out.old ++ all_row_bytes counts.now tables.now) }
{
    for table in 0..64 {
        push_table(out, counts, table, tables[table as usize].as_slice())?;
    }
    Ok(())
}
