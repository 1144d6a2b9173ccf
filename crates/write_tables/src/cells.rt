//! The cells of a row that is written (ECMA-335 II.22).

ghost use Rattle.std.specs.Prelude.{◌≡◌};
ghost use Rattle.std.specs.Option.{option_copied};
ghost use Rattle.node_model.specs.RowTexts.{blob_of_cell, number_of_cell, text_of_cell};
ghost use Rattle.node_model.specs.declared.key.Key.TheVariants as keys;
ghost use Rattle.write_plan.specs.Planned.{kept_value};
ghost use Rattle.write_plan.specs.Unfit.{row_held};
ghost use Rattle.write_tables.specs.Contents.{guid_of_cell};
ghost use Rattle.write_tables.specs.RowColumns.{cells_held};

use cil_base::Token;
use node_model::{Cell, Key, RowValue, Value};
use write_plan::Plan;

/// A row, if the plan has it.
fn row_held(plan: &Plan, token: Token) -> Option<&RowValue>
    ensures { option_copied result ≡ row_held (kept_value plan.now.entries (keys.Row token)) }
{
    match plan.value(&Key::Row(token)) {
        Some(Value::Row(row)) => Some(row),
        _ => None,
    }
}

/// The cells of a row.
pub(crate) fn cells_held(plan: &Plan, token: Token) -> &[Cell]
    ensures { result.now ≡ cells_held plan.now token }
{
    match row_held(plan, token) {
        Some(row) => row.cells.as_slice(),
        None => &[],
    }
}

/// The text of a cell, empty where it is no text.
pub(crate) fn text_in<'a>(cell: Option<&'a Cell>) -> &'a [u8]
    ensures { result.now ≡ text_of_cell (option_copied cell.entry) }
{
    match cell {
        Some(Cell::Text(text)) => text.as_slice(),
        _ => &[],
    }
}

/// The blob of a cell, empty where it is no blob.
pub(crate) fn blob_in<'a>(cell: Option<&'a Cell>) -> &'a [u8]
    ensures { result.now ≡ blob_of_cell (option_copied cell.entry) }
{
    match cell {
        Some(Cell::Blob(blob)) => blob.as_slice(),
        _ => &[],
    }
}

/// The number of a cell, 0 where it is none.
pub(crate) fn number_in(cell: Option<&Cell>) -> u64
    ensures { result ≡ number_of_cell (option_copied cell.entry) }
{
    match cell {
        Some(Cell::Num(number)) => *number,
        _ => 0,
    }
}

/// The GUID of a cell, if it has one.
pub(crate) fn guid_in(cell: Option<&Cell>) -> Option<[u8; 16]>
    ensures { result ≡ guid_of_cell (option_copied cell.entry) }
{
    match cell {
        Some(Cell::Guid(bytes)) => Some(*bytes),
        _ => None,
    }
}
