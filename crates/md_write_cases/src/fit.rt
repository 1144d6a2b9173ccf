ghost use Rattle.std.specs.Prelude.{ℕ, ◌≡◌, ◌<◌, ◌^◌, length, IsTrue};
ghost use Rattle.md_schema.specs.Cell.{read_width};
ghost use Rattle.md_schema.specs.Column.{seen_columns};
ghost use Rattle.md_tables.specs.Written.{Fits};
ghost use Rattle.md_write.specs.TableRows.{AreRowsFor, AreTableRows, row_count, rows_at};

use cil_base::{List, MAX_RID};
use md_schema::{Column, ColumnKind, Counts, columns, width};
use md_write::counts_of_rows;

/// The bytes of a column that are read: of a byte and its pad the byte alone.
fn read_width(counts: &Counts, kind: ColumnKind) -> u8
    ensures { result ≡ read_width kind counts.now }
{
    match kind {
        ColumnKind::U8Pad => 1,
        _ => width(kind, counts),
    }
}

/// Whether a number fits the bytes that are read of its column.
fn fits(counts: &Counts, kind: ColumnKind, number: u32) -> bool
    ensures { IsTrue result → number < 256 ^ read_width kind counts.now }
{
    match read_width(counts, kind) {
        1 => number < 256,
        2 => number < 65536,
        4 => true,
        _ => false,
    }
}

/// Whether a row has a number for each column, each of which fits.
fn row_fits(counts: &Counts, columns: &[Column], numbers: &[u32]) -> bool
    ensures { IsTrue result → Fits counts.now (seen_columns columns.now) numbers.now }
{
    if numbers.len() != columns.len() {
        return false;
    }
    for place in 0..columns.len() {
        if !fits(counts, columns[place].kind, numbers[place]) {
            return false;
        }
    }
    true
}

/// Whether all rows of a table fit its columns.
fn table_fits(counts: &Counts, table: u8, rows: &[List<u32>]) -> bool
    ensures { IsTrue result → AreRowsFor counts.now table rows.now }
{
    let Some(columns) = columns(table) else {
        return rows.is_empty();
    };
    for row in rows {
        if !row_fits(counts, columns, row.as_slice()) {
            return false;
        }
    }
    true
}

/// Whether no table has too many rows.
fn are_few(tables: &[List<List<u32>>]) -> bool
    ensures { IsTrue result → (table : ℕ) → row_count tables.now table < 2 ^ 24 }
{
    for rows in tables {
        if rows.len() > MAX_RID as usize {
            return false;
        }
    }
    true
}

/// Whether the rows of all tables fit.
fn tables_fit(counts: &Counts, tables: &[List<List<u32>>]) -> bool
    requires { length tables.now ≡ 64 }
    ensures { IsTrue result → (table : ℕ) → AreRowsFor counts.now table (rows_at tables.now table) }
{
    for table in 0..64 {
        if !table_fits(counts, table, tables[table as usize].as_slice()) {
            return false;
        }
    }
    true
}

/// Whether rows can be written.
pub(crate) fn can_be_written(heap_sizes: u8, tables: &[List<List<u32>>]) -> bool
    ensures { IsTrue result → AreTableRows heap_sizes tables.now }
{
    if heap_sizes >= 8 || tables.len() != 64 || !are_few(tables) {
        return false;
    }
    let counts = counts_of_rows(heap_sizes, tables);
    tables_fit(&counts, tables)
}
