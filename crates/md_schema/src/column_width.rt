ghost use Rattle.std.specs.Prelude.{◌≡◌, ◌≤◌};
ghost use Rattle.std.specs.List.{list_all};
ghost use Rattle.md_schema.specs.Width.{heap_width_of, index_width_of, is_small, rows_of, column_width_of};

use crate::coded_kind::{tables, tag_bits};
use crate::column::ColumnKind;

/// What decides the widths of columns: the rows of each table, and the header's byte that says which heaps are large
/// (1 `#Strings`, 2 `#GUID`, 4 `#Blob`; ECMA-335 II.24.2.6).
#[derive(Clone, Copy, Debug, PartialEq, Eq)]
pub struct Counts {
    pub rows: [u32; 64],
    pub heap_sizes: u8,
}

/// Returns the bytes of a column, 2 or 4 (ECMA-335 II.24.2.6). A table of number 64 or more counts as one without rows.
pub fn width(kind: ColumnKind, counts: &Counts) -> u8
    ensures { result ≡ column_width_of kind counts.now }
{
    match kind {
        ColumnKind::U8Pad | ColumnKind::U16 => 2,
        ColumnKind::U32 | ColumnKind::Rva | ColumnKind::Offset => 4,
        ColumnKind::Text => heap_width(counts, 0x01),
        ColumnKind::Guid => heap_width(counts, 0x02),
        ColumnKind::Blob | ColumnKind::Sig => heap_width(counts, 0x04),
        ColumnKind::Index(table) | ColumnKind::Start(table) => {
            index_width(counts, 0, &[Some(table)])
        }
        ColumnKind::Coded(kind) => index_width(counts, tag_bits(kind), tables(kind)),
    }
}

/// Returns the bytes of an index into the heap of this bit.
fn heap_width(counts: &Counts, bit: u8) -> u8
    ensures { result ≡ heap_width_of counts.now bit }
{
    if counts.heap_sizes & bit == 0 { 2 } else { 4 }
}

/// Returns the bytes of an index that keeps `bits` bits for a tag and may name rows of these tables.
fn index_width(counts: &Counts, bits: u32, tables: &[Option<u8>]) -> u8
    requires { bits ≤ 16 }
    ensures { result ≡ index_width_of counts.now bits tables.now }
{
    if all_small(counts, bits, tables) {
        2
    } else {
        4
    }
}

/// Whether the rows of each of these tables fit 2 bytes that keep `bits` bits for a tag.
fn all_small(counts: &Counts, bits: u32, tables: &[Option<u8>]) -> bool
    requires { bits ≤ 16 }
    ensures { result ≡ list_all (is_small counts.now bits) tables.now }
{
    tables.iter().all(|table| small(counts, bits, *table))
}

/// Whether the rows of the table fit 2 bytes that keep `bits` bits for a tag.
fn small(counts: &Counts, bits: u32, table: Option<u8>) -> bool
    requires { bits ≤ 16 }
    ensures { result ≡ is_small counts.now bits table }
{
    match table {
        Some(table) => rows(counts, table) < 1 << (16 - bits),
        None => true,
    }
}

/// Returns the rows of a table.
fn rows(counts: &Counts, table: u8) -> u32
    ensures { result ≡ rows_of counts.now table }
{
    if table < 64 {
        counts.rows[table as usize]
    } else {
        0
    }
}
