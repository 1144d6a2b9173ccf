ghost use Rattle.std.specs.Prelude.{◌≡◌};
ghost use Rattle.std.specs.List.{list_any};
ghost use Rattle.md_schema.specs.Reference.{index_of, is_named, is_same, is_tag_table, may_name_of, reference_of};

use crate::coded::{Coded, decode_coded};
use crate::coded_kind::tables;
use crate::column::ColumnKind;
use cil_base::{MAX_RID, Token};

/// Whether a column of this kind may name rows of the table: an index into it, or a coded index with a tag for it.
pub fn may_name(kind: ColumnKind, table: u8) -> bool
    ensures { result ≡ may_name_of kind table }
{
    match kind {
        ColumnKind::Index(other) => other == table,
        ColumnKind::Coded(kind) => is_among(tables(kind), table),
        _ => false,
    }
}

/// Whether a tag has this table.
fn is_among(tables: &[Option<u8>], table: u8) -> bool
    ensures { result ≡ list_any (is_tag_table table) tables.now }
{
    tables.iter().any(|named| is_of(*named, table))
}

/// Whether this is the table of a tag.
fn is_of(named: Option<u8>, table: u8) -> bool
    ensures { result ≡ is_tag_table table named }
{
    matches!(named, Some(other) if other == table)
}

/// Reads a number of a column as the row that it names. `None` exactly where the column is neither an index into a table
/// nor a coded index (ECMA-335 II.24.2.6).
pub fn decode_reference(kind: ColumnKind, value: u32) -> Option<Coded>
    ensures { result ≡ reference_of kind value }
{
    match kind {
        ColumnKind::Index(table) => Some(decode_index(table, value)),
        ColumnKind::Coded(kind) => Some(decode_coded(kind, value)),
        _ => None,
    }
}

/// Reads `value` as a row of the table.
fn decode_index(table: u8, value: u32) -> Coded
    ensures { result ≡ index_of table value }
{
    if value == 0 {
        Coded::Null
    } else if value > MAX_RID {
        Coded::Beyond(value)
    } else {
        Coded::Is(Token { table, rid: value })
    }
}

/// Whether a number of a column names exactly this token.
pub fn names(kind: ColumnKind, value: u32, token: Token) -> bool
    ensures { result ≡ is_named kind value token }
{
    match decode_reference(kind, value) {
        Some(coded) => is_token(coded, token),
        None => false,
    }
}

/// Whether this is the row that was read.
fn is_token(coded: Coded, token: Token) -> bool
    ensures { result ≡ is_same coded token }
{
    coded == Coded::Is(token)
}
