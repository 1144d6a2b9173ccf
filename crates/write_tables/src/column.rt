//! The number of a row in a column, by the kind of the column (ECMA-335 II.22, II.24.2.6).

ghost use Rattle.std.specs.Prelude.{◌≡◌, ◌<◌, [], ◌∷◌, ℕ, IfOk, IfSome};
ghost use Rattle.std.specs.List.{position};
ghost use Rattle.std.specs.Option.{option_copied};
ghost use Rattle.md_heaps.specs.LaidHeaps.{blob_entry};
ghost use Rattle.md_heaps.specs.Pools.{entry_place};
ghost use Rattle.md_schema.specs.CodedKind.{tables_of};
ghost use Rattle.md_schema.specs.Reference.{is_tag_table};
ghost use Rattle.node_model.specs.RowTexts.{number_of_cell};
ghost use Rattle.write_plan.specs.Written.{new_token, reference_number};
ghost use Rattle.write_tables.specs.Contents.{AsBlob, column_contents};
ghost use Rattle.write_tables.specs.RowColumns.{RowColumn, sig_blob};
ghost use Rattle.write_tables.specs.WrittenRows.{column_number, row_named};
ghost use Rattle.write_tables.specs.inner.Gathered.{Gathers};

use crate::cells::number_in;
use crate::heap::{narrowed, put_blob, put_bytes, put_guid, put_text};
use crate::signature::sig_blob;
use cil_base::{NoMemory, Token};
use md_heaps::HeapBuilder;
use md_schema::{CodedKind, ColumnKind, tables, tag_bits};
use node_model::Cell;
use std::alloc::Global;
use write_plan::Plan;

/// The token of a row by its new number; any other as it is.
fn new_token(plan: &Plan, token: Token) -> Token
    ensures { result ≡ new_token plan.now.lists token }
{
    match plan.renumber(token) {
        Some(new) => new,
        None => token,
    }
}

/// The place of a table among the tags of a coded index.
fn tag_place(kind: CodedKind, table: u8) -> Option<usize>
    ensures place { result ≡ position (is_tag_table table) (tables_of kind) }
    ensures bound { IfSome result (λ tag. tag < 32) }
{
    tables(kind).iter().position(|named| *named == Some(table))
}

/// The number of a token in a column that names rows.
fn reference_number(kind: ColumnKind, token: Token) -> u32
    ensures { result ≡ reference_number kind token }
{
    match kind {
        ColumnKind::Index(_) => token.rid,
        ColumnKind::Coded(kind) => {
            let tag = tag_place(kind, token.table).unwrap_or(0);
            token.rid * (1 << tag_bits(kind)) + tag as u32
        }
        _ => 0,
    }
}

/// The new number of the row that a cell names, and 0 where it names none.
fn row_named(plan: &Plan, kind: ColumnKind, cell: Option<&Cell>) -> u32
    ensures { result ≡ row_named plan.now kind (option_copied cell.entry) }
{
    match cell {
        Some(Cell::Ref(token)) => reference_number(kind, new_token(plan, *token)),
        _ => 0,
    }
}

/// The number of a cell, as one of four bytes.
fn cell_number(cell: Option<&Cell>) -> Result<u32, NoMemory>
    ensures { IfOk result (λ number. number ≡ number_of_cell (option_copied cell.entry)) }
{
    narrowed(number_in(cell))
}

/// Puts a row's signature in. Its index in #Blob.
fn put_sig(alloc: Global, plan: &Plan, heaps: &mut HeapBuilder, row: Token) -> Result<u32, NoMemory>
    ensures { IfOk result (Gathers ℕ heaps.old heaps.new (AsBlob (sig_blob plan.now row) ∷ [])
        (λ later. entry_place later.blobs (blob_entry (sig_blob plan.now row)))) }
{
    let blob = sig_blob(alloc, plan, row)?;
    put_bytes(heaps, blob.as_slice())
}

/// Puts what a row has in a column into the heaps. Its number in the column, where `placed` is the one by the row's
/// place.
pub(crate) fn put_column(
    alloc: Global,
    plan: &Plan,
    heaps: &mut HeapBuilder,
    row: Token,
    kind: ColumnKind,
    cell: Option<&Cell>,
    placed: u32,
) -> Result<u32, NoMemory>
    ensures { let column : RowColumn = record { row = row; kind = kind; cell = option_copied cell.entry } in
        IfOk result (Gathers ℕ heaps.old heaps.new (column_contents plan.now column)
        (λ later. column_number plan.now later placed column)) }
{
    match kind {
        ColumnKind::U8Pad => cell_number(cell),
        ColumnKind::U16 => cell_number(cell),
        ColumnKind::U32 => cell_number(cell),
        ColumnKind::Text => put_text(heaps, cell),
        ColumnKind::Guid => put_guid(heaps, cell),
        ColumnKind::Blob => put_blob(heaps, cell),
        ColumnKind::Sig => put_sig(alloc, plan, heaps, row),
        ColumnKind::Index(_) => Ok(row_named(plan, kind, cell)),
        ColumnKind::Coded(_) => Ok(row_named(plan, kind, cell)),
        ColumnKind::Start(_) => Ok(placed),
        ColumnKind::Rva => Ok(placed),
        ColumnKind::Offset => Ok(placed),
    }
}
