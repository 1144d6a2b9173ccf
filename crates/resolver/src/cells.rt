//! The cells of a row by the names of their columns (ECMA-335 II.22).

ghost use Rattle.std.specs.Prelude.{◌≡◌};
ghost use Rattle.std.specs.Option.{option_copied};
ghost use Rattle.md_schema.specs.Column.{seen_columns};
ghost use Rattle.node_model.specs.KeyKinds.{table_columns};
ghost use Rattle.node_model.specs.RowTexts.{blob_named, cell_among, cell_named, number_named, text_named, token_named};

use cil_base::Token;
use md_schema::{Column, columns, is_cell};
use node_model::{Cell, RowValue};

/// The columns of a table. None of another number.
pub(crate) fn table_columns(table: u8) -> &'static [Column]
    ensures { seen_columns result.now ≡ table_columns table }
{
    match columns(table) {
        Some(columns) => columns,
        None => &[],
    }
}

/// The first of these cells whose column has the name; the cells are those of the columns that are cells, in order.
#[tactic(auto, unfolding(node_model::specs::RowTexts::cell_among))]
fn cell_among<'a>(columns: &[Column], cells: &'a [Cell], name: &[u8]) -> Option<&'a Cell>
    ensures { option_copied result ≡ cell_among (seen_columns columns.now) cells.now name.now }
{
    let [column, columns @ ..] = columns else {
        return None;
    };
    if !is_cell(column.kind) {
        return cell_among(columns, cells, name);
    }
    let [cell, cells @ ..] = cells else {
        return None;
    };
    if column.name.as_bytes() == name {
        return Some(cell);
    }
    cell_among(columns, cells, name)
}

/// The cell of a row in the column of its table that has this name. `None` where there is none.
fn cell_named<'a>(row: &'a RowValue, name: &[u8]) -> Option<&'a Cell>
    ensures { option_copied result ≡ cell_named name.now row.now }
{
    cell_among(table_columns(row.token.table), row.cells.as_slice(), name)
}

/// The text in the column; empty where it has none.
pub(crate) fn text_named<'a>(row: &'a RowValue, name: &[u8]) -> &'a [u8]
    ensures { result.now ≡ text_named name.now row.now }
{
    match cell_named(row, name) {
        Some(Cell::Text(text)) => text.as_slice(),
        _ => &[],
    }
}

/// The number in the column; 0 where it has none.
pub(crate) fn number_named(row: &RowValue, name: &[u8]) -> u64
    ensures { result ≡ number_named name.now row.now }
{
    match cell_named(row, name) {
        Some(Cell::Num(number)) => *number,
        _ => 0,
    }
}

/// The bytes in the column; empty where it has none.
pub(crate) fn blob_named<'a>(row: &'a RowValue, name: &[u8]) -> &'a [u8]
    ensures { result.now ≡ blob_named name.now row.now }
{
    match cell_named(row, name) {
        Some(Cell::Blob(bytes)) => bytes.as_slice(),
        _ => &[],
    }
}

/// The row that the column names. `None` where it names none.
pub(crate) fn token_named(row: &RowValue, name: &[u8]) -> Option<Token>
    ensures { result ≡ token_named name.now row.now }
{
    match cell_named(row, name) {
        Some(Cell::Ref(token)) => Some(*token),
        _ => None,
    }
}
