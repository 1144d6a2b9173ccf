ghost use Rattle.std.specs.Prelude.{ℕ, ◌≡◌, ◌<◌, ◌≤◌, ◌+◌, ◌*◌, ◌^◌, ◌&&◌, length, is_none, true, IfNone, IfSome};
ghost use Rattle.md_schema.specs.Entry.{columns_of};
ghost use Rattle.cil_base.specs.Place.{number_at};
ghost use Rattle.md_schema.specs.Header.{IsSupported, count_of, is_present, is_set, present_below, valid_of};
ghost use Rattle.md_tables.specs.Refusal.{IsUnsupported};
ghost use Rattle.md_tables.specs.inner.Opening.{IsCount, IsCounted};
ghost use Rattle.md_schema.specs.Layout.{IsWhole};

use cil_base::{MAX_RID, number_at};
use md_schema::columns;

/// The bytes of the header before the counts.
pub(crate) const HEADER_LEN: usize = 24;

/// Returns Valid, a bit for each table that is in the stream.
fn valid(stream: &[u8]) -> u64
    requires { 24 ≤ length stream.now }
    ensures { result ≡ valid_of stream.now }
{
    number_at(stream, 8, 8)
}

/// Whether the table's bit stands.
fn is_bit_set(valid: u64, table: u8) -> bool
    requires { table < 64 }
    ensures { result ≡ is_set valid table }
{
    (valid >> table) % 2 == 1
}

/// Whether the table is in the stream and is not one of the 38.
fn is_unknown(valid: u64, table: u8) -> bool
    requires { table < 64 }
    ensures { result ≡ (is_set valid table && is_none (columns_of table)) }
{
    is_bit_set(valid, table) && columns(table).is_none()
}

/// Returns the first table of the stream that is not one of the 38.
pub(crate) fn unsupported_table(stream: &[u8]) -> Option<u8>
    requires { 24 ≤ length stream.now }
    ensures found { IfSome result (IsUnsupported stream.now) }
    ensures none { IfNone result ((table : ℕ) → table < 64 → IsSupported stream.now table) }
{
    let valid = valid(stream);
    for table in 0..64 {
        if is_unknown(valid, table) {
            return Some(table);
        }
    }
    None
}

/// Returns the rows of a table, by the number of lesser tables in the stream. `None` where its count passes the stream,
/// or 2^24 - 1.
fn read_count(stream: &[u8], valid: u64, table: u8, present: usize) -> Option<u32>
    requires valid { valid ≡ valid_of stream.now }
    requires table { table < 64 }
    requires present { present ≡ present_below stream.now table }
    requires within { 24 + 4 * present ≤ length stream.now }
    ensures some { IfSome result (IsCount stream.now table) }
    ensures none { IfNone result (IsWhole stream.now → ⊥) }
{
    if !is_bit_set(valid, table) {
        return Some(0);
    }
    let place = HEADER_LEN + 4 * present;
    if stream.len() - place < 4 {
        return None;
    }
    let count = number_at(stream, place, 4) as u32;
    if count > MAX_RID { None } else { Some(count) }
}

/// Returns the rows of each table, and how many tables are in the stream. `None` where the counts pass the stream, or one
/// passes 2^24 - 1.
pub(crate) fn read_counts(stream: &[u8]) -> Option<([u32; 64], usize)>
    requires { 24 ≤ length stream.now }
    ensures some { IfSome result (λ found. IsCounted stream.now found.0 found.1) }
    ensures none { IfNone result (IsWhole stream.now → ⊥) }
{
    let valid = valid(stream);
    let mut rows = [0; 64];
    let mut present = 0;
    for table in 0..64 {
        rows[table as usize] = read_count(stream, valid, table, present)?;
        if is_bit_set(valid, table) {
            present += 1;
        }
    }
    Some((rows, present))
}
