ghost use Rattle.std.specs.Prelude.{ℕ, ◌≡◌, ◌<◌, ◌^◌, ◌++◌, length, OnOk, if◌then◌else◌};
ghost use Rattle.md_write.specs.TablesStream.{has_rows, tables_header, valid_of_rows};

use cil_base::{Bytes, List, NoMemory};

/// The tables that are sorted by a column: the same whether they have rows or not (ECMA-335 II.24.2.6).
const SORTED: u64 = 0x1600_3301_FA00;

/// The table's bit where it has rows, else 0.
fn bit(table: u8, rows: &[List<u32>]) -> u64
    requires { table < 64 }
    ensures { result ≡ (if has_rows rows.now then 2 ^ table else 0) }
{
    if rows.is_empty() { 0 } else { 1 << table }
}

/// Returns Valid, a bit for each table that has rows.
pub(crate) fn valid(tables: &[List<List<u32>>]) -> u64
    requires { length tables.now ≡ 64 }
    ensures { result ≡ valid_of_rows tables.now }
{
    let mut valid = 0;
    for table in 0..64 {
        valid += bit(table, tables[table as usize].as_slice());
    }
    valid
}

/// Adds the 24 bytes before the counts.
#[tactic(auto, unfolding(crate::specs::TablesStream::tables_header))]
pub(crate) fn push_header(out: &mut Bytes, heap_sizes: u8, valid: u64) -> Result<(), NoMemory>
    ensures { OnOk result (out.new ≡ out.old ++ tables_header heap_sizes valid) }
{
    out.extend(&[0, 0, 0, 0, 2, 0, heap_sizes, 1])?;
    out.extend(&valid.to_le_bytes())?;
    out.extend(&SORTED.to_le_bytes())?;
    Ok(())
}
