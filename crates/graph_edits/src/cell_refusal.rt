ghost use Rattle.std.specs.Prelude.{◌≡◌, ◌==◌};
ghost use Rattle.std.specs.List.{position};
ghost use Rattle.node_model.specs.EditRefusals.{first_made, greatest_number, number_refusal, text_refusal};
ghost use Rattle.node_model.specs.PlacedCells.{PlacedCell, edit_cells};

use crate::placed_cells::edit_cells;
use cil_base::Bytes;
use md_schema::ColumnKind;
use node_model::{Cell, Edit, EditRefusal};

/// The greatest number of a column of numbers.
fn greatest_number(kind: ColumnKind) -> Option<u64>
    ensures { result ≡ greatest_number kind }
{
    match kind {
        ColumnKind::U8Pad => Some(0xff),
        ColumnKind::U16 => Some(0xffff),
        ColumnKind::U32 => Some(0xffff_ffff),
        _ => None,
    }
}

/// A number that passes the greatest of its column.
fn wide_cell(kind: ColumnKind, cell: &Cell) -> Option<EditRefusal>
    ensures { result ≡ number_refusal kind cell.now }
{
    let Cell::Num(value) = cell else {
        return None;
    };
    let limit = greatest_number(kind)?;
    if *value > limit {
        Some(EditRefusal::NumberTooWide(*value, limit))
    } else {
        None
    }
}

/// The first number of an edit that passes the greatest of its column.
pub(crate) fn wide_refusal(edit: &Edit) -> Option<EditRefusal>
    ensures { result ≡ first_made (λ (c : PlacedCell). number_refusal c.kind c.cell) (edit_cells edit.now) }
{
    let mut left = edit_cells(edit);
    while let Some((placed, others)) = left.split_first() {
        if let Some(refusal) = wide_cell(placed.kind, placed.cell) {
            return Some(refusal);
        }
        left = others;
    }
    None
}

/// The place of the first zero byte.
fn zero_place(text: &Bytes) -> Option<usize>
    ensures { result ≡ position (λ byte. byte == 0) text.now }
{
    text.as_slice().iter().position(|byte| *byte == 0)
}

/// A text with a zero byte.
fn zero_cell(cell: &Cell) -> Option<EditRefusal>
    ensures { result ≡ text_refusal cell.now }
{
    let Cell::Text(text) = cell else {
        return None;
    };
    let place = zero_place(text)?;
    Some(EditRefusal::BadText(place as u64))
}

/// The first text of an edit that has a zero byte.
pub(crate) fn text_refusal(edit: &Edit) -> Option<EditRefusal>
    ensures { result ≡ first_made (λ (c : PlacedCell). text_refusal c.cell) (edit_cells edit.now) }
{
    let mut left = edit_cells(edit);
    while let Some((placed, others)) = left.split_first() {
        if let Some(refusal) = zero_cell(placed.cell) {
            return Some(refusal);
        }
        left = others;
    }
    None
}
