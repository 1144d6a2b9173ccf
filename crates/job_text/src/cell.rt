//! Cells as commands give them, by the kinds of their columns.

ghost use Rattle.std.specs.Prelude.{◌≡◌, ◌^◌, IfOk, map, option_map};
ghost use Rattle.md_schema.specs.Column.{seen_columns};
ghost use Rattle.node_model.specs.declared.cell.Cell.TheVariants as cells;
ghost use Rattle.job_text.specs.Cells.{given_blob, given_column_cell, only_cells, given_cell, given_cells_from, given_cells, given_guid, given_bytes, given_index};
ghost use Rattle.job_text.specs.Values.{given_number, given_text};
ghost use Rattle.serde_json.specs.View.{view};

use crate::command::Command;
use crate::digits::{guid_of, hex_bytes};
use crate::token::given_token;
use crate::values::{given_list, given_text, given_text_bytes, is_null, member_count};
use cil_base::{Bytes, List, NoMemory};
use md_schema::{Column, ColumnKind, column_at, columns, is_cell};
use node_model::Cell;
use serde_json::Value;
use std::alloc::Global;

/// The bytes of a text of hex digits. None exactly where the value is none.
#[tactic(auto, unfolding(crate::specs::Cells::given_bytes))]
pub(crate) fn given_bytes(alloc: Global, value: &Value) -> Result<Option<Bytes>, NoMemory>
    ensures { IfOk result (λ bytes. bytes ≡ given_bytes (view value.now)) }
{
    match given_text_bytes(value) {
        Some(text) => hex_bytes(alloc, text),
        None => Ok(None),
    }
}

/// The bytes of an object with the one member `hex`.
#[tactic(auto, unfolding(crate::specs::Cells::given_blob))]
fn given_blob(alloc: Global, value: &Value) -> Result<Option<Bytes>, NoMemory>
    ensures { IfOk result (λ bytes. bytes ≡ given_blob (view value.now)) }
{
    if member_count(value) != 1 {
        return Ok(None);
    }
    match value.get("hex") {
        Some(hex) => given_bytes(alloc, hex),
        None => Ok(None),
    }
}

/// The cell of a number.
#[tactic(auto, unfolding(crate::specs::Values::given_number))]
fn number_cell(value: &Value) -> Option<Cell>
    ensures { result ≡ option_map cells.Num (given_number (2 ^ 64) (view value.now)) }
{
    match value.as_u64() {
        Some(number) => Some(Cell::Num(number)),
        None => None,
    }
}

/// The cell of a text.
fn text_cell(alloc: Global, value: &Value) -> Result<Option<Cell>, NoMemory>
    ensures { IfOk result (λ cell. cell ≡ option_map cells.Text (given_text (view value.now))) }
{
    match given_text_bytes(value) {
        Some(text) => Ok(Some(Cell::Text(List::from_slice(alloc, text)?))),
        None => Ok(None),
    }
}

/// The cell of a blob.
fn blob_cell(alloc: Global, value: &Value) -> Result<Option<Cell>, NoMemory>
    ensures { IfOk result (λ cell. cell ≡ option_map cells.Blob (given_blob (view value.now))) }
{
    match given_blob(alloc, value)? {
        Some(bytes) => Ok(Some(Cell::Blob(bytes))),
        None => Ok(None),
    }
}

/// The cell of a GUID, or of none.
#[tactic(auto, unfolding(crate::specs::Cells::given_guid))]
fn given_guid(value: &Value) -> Option<Cell>
    ensures { result ≡ given_guid (view value.now) }
{
    if is_null(value) {
        return Some(Cell::NoGuid);
    }
    let bytes = guid_of(given_text(value)?)?;
    Some(Cell::Guid(bytes))
}

/// The cell of an index, or of none.
#[tactic(auto, unfolding(crate::specs::Cells::given_index))]
fn given_index(home: u32, before: &[Command], value: &Value) -> Option<Cell>
    ensures { result ≡ given_index home before.now (view value.now) }
{
    if is_null(value) {
        return Some(Cell::NoRef);
    }
    let row = given_token(home, before, value)?;
    Some(Cell::Ref(row.token))
}

/// The cell that a value gives for a column of that kind. None exactly where it gives none.
#[tactic(auto, unfolding(crate::specs::Cells::given_cell))]
fn given_cell(
    alloc: Global,
    home: u32,
    before: &[Command],
    kind: ColumnKind,
    value: &Value,
) -> Result<Option<Cell>, NoMemory>
    ensures { IfOk result (λ cell. cell ≡ given_cell home before.now kind (view value.now)) }
{
    match kind {
        ColumnKind::U8Pad | ColumnKind::U16 | ColumnKind::U32 => Ok(number_cell(value)),
        ColumnKind::Text => text_cell(alloc, value),
        ColumnKind::Guid => Ok(given_guid(value)),
        ColumnKind::Blob => blob_cell(alloc, value),
        ColumnKind::Index(_) | ColumnKind::Coded(_) => Ok(given_index(home, before, value)),
        ColumnKind::Sig | ColumnKind::Start(_) | ColumnKind::Rva | ColumnKind::Offset => Ok(None),
    }
}

/// The cell that a value gives for a column of a table. None exactly where it gives none.
#[tactic(auto, unfolding(crate::specs::Cells::given_column_cell))]
pub(crate) fn given_column_cell(
    alloc: Global,
    home: u32,
    before: &[Command],
    table: u8,
    number: u8,
    value: &Value,
) -> Result<Option<Cell>, NoMemory>
    ensures { IfOk result (λ cell. cell ≡ given_column_cell home before.now table number (view value.now)) }
{
    match column_at(table, number) {
        Some(column) => given_cell(alloc, home, before, column.kind, value),
        None => Ok(None),
    }
}

/// The cells that values give for the first of these columns which are cells, after those in front.
#[tactic(auto, unfolding(crate::specs::Cells::given_cells_from))]
fn given_cells_from(
    alloc: Global,
    home: u32,
    before: &[Command],
    front: List<Cell>,
    columns: &[Column],
    values: &[Value],
) -> Result<Option<List<Cell>>, NoMemory>
    ensures { IfOk result (λ cells. cells ≡ given_cells_from home before.now front (map view values.now) (only_cells (seen_columns columns.now))) }
{
    let [value, values_left @ ..] = values else {
        return Ok(Some(front));
    };
    let [column, columns_left @ ..] = columns else {
        return Ok(None);
    };
    if !is_cell(column.kind) {
        return given_cells_from(alloc, home, before, front, columns_left, values);
    }
    let Some(cell) = given_cell(alloc, home, before, column.kind, value)? else {
        return Ok(None);
    };
    let mut front = front;
    front.push(cell)?;
    given_cells_from(alloc, home, before, front, columns_left, values_left)
}

/// The cells that a list gives for the first of a table's columns which are cells. None exactly where it gives none.
#[tactic(auto, unfolding(crate::specs::Cells::given_cells))]
pub(crate) fn given_cells(
    alloc: Global,
    home: u32,
    before: &[Command],
    table: u8,
    value: &Value,
) -> Result<Option<List<Cell>>, NoMemory>
    ensures { IfOk result (λ cells. cells ≡ given_cells home before.now table (view value.now)) }
{
    let Some(values) = given_list(value) else {
        return Ok(None);
    };
    match columns(table) {
        Some(columns) => given_cells_from(alloc, home, before, List::new(alloc), columns, values),
        None => Ok(None),
    }
}
