ghost use Rattle.std.specs.Prelude.{ℕ, ◌≡◌, ◌<◌, ◌^◌, ◌++◌, length, OnOk};
ghost use Rattle.md_write.specs.TableRows.{counts_of_rows, row_count};
ghost use Rattle.md_write.specs.TablesStream.{all_count_bytes, count_bytes};

use crate::number::push_number;
use cil_base::{Bytes, List, NoMemory};
use md_schema::Counts;

/// Returns what decides the widths of the columns of rows, which stand in 64 lists by the numbers of their tables: the
/// rows of each table, and the bits of the large heaps (ECMA-335 II.24.2.6).
pub fn counts_of_rows(heap_sizes: u8, tables: &[List<List<u32>>]) -> Counts
    requires all { length tables.now ≡ 64 }
    requires few { (table : ℕ) → row_count tables.now table < 2 ^ 24 }
    ensures { result ≡ counts_of_rows heap_sizes tables.now }
{
    let mut rows = [0; 64];
    for table in 0..64 {
        rows[table] = tables[table].len() as u32;
    }
    Counts { rows, heap_sizes }
}

/// Adds the number of a table's rows, where it has any.
fn push_count(out: &mut Bytes, rows: &[List<u32>]) -> Result<(), NoMemory>
    requires { length rows.now < 2 ^ 24 }
    ensures { OnOk result (out.new ≡ out.old ++ count_bytes rows.now) }
{
    if rows.is_empty() {
        return Ok(());
    }
    push_number(out, rows.len() as u32, 4)
}

/// Adds the number of the rows of each table that has any.
pub(crate) fn push_counts(out: &mut Bytes, tables: &[List<List<u32>>]) -> Result<(), NoMemory>
    requires all { length tables.now ≡ 64 }
    requires few { (table : ℕ) → row_count tables.now table < 2 ^ 24 }
    ensures { OnOk result (out.new ≡ out.old ++ all_count_bytes tables.now) }
{
    for table in 0..64 {
        push_count(out, tables[table].as_slice())?;
    }
    Ok(())
}
