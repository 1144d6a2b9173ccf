ghost use Rattle.std.specs.Prelude.{◌≡◌, ◌<◌, ◌≤◌, length, IfSome};
ghost use Rattle.std.specs.List.{position};
ghost use Rattle.std.specs.Option.{option_map};
ghost use Rattle.md_schema.specs.Column.{seen_column, seen_columns};
ghost use Rattle.md_schema.specs.Entry.{column_of, columns_of, is_start, table_name_of, start_column_of};

use crate::column::{Column, ColumnKind};
use crate::schema::entry;

/// Returns the columns of the table, in order, at most nine. `None` exactly where it is not one of the 38 tables
/// (ECMA-335 II.22).
pub fn columns(table: u8) -> Option<&'static [Column]>
    ensures columns { option_map (λ columns. seen_columns columns.now) result ≡ columns_of table }
    ensures few { IfSome result (λ columns. length columns.now ≤ 9) }
{
    Some(entry(table)?.columns)
}

/// Returns the name of the table. `None` exactly where it is not one of the 38 tables (ECMA-335 II.22).
pub fn table_name(table: u8) -> Option<&'static str>
    ensures { option_map (λ name. name.now) result ≡ table_name_of table }
{
    Some(entry(table)?.name)
}

/// Returns one column of the table. `None` exactly where there is no such table or column.
pub fn column_at(table: u8, column: u8) -> Option<Column>
    ensures { option_map seen_column result ≡ column_of table column }
{
    columns(table)?.get(column as usize).copied()
}

/// Returns the number of the column of `owner` that starts runs in `table`. `None` exactly where `owner` does not own
/// the rows of `table`.
pub fn start_column(owner: u8, table: u8) -> Option<u8>
    ensures { result ≡ start_column_of owner table }
{
    let place = start_among(columns(owner)?, table)?;
    Some(place as u8)
}

/// Returns the place of the first of these columns that starts runs in the table.
fn start_among(columns: &[Column], table: u8) -> Option<usize>
    ensures place { result ≡ position (λ column. is_start table column.kind) columns.now }
    ensures within { IfSome result (λ place. place < length columns.now) }
{
    columns.iter().position(|column| starts(column.kind, table))
}

/// Whether a column starts runs in the table.
fn starts(kind: ColumnKind, table: u8) -> bool
    ensures { result ≡ is_start table kind }
{
    matches!(kind, ColumnKind::Start(other) if other == table)
}
