ghost use Rattle.std.specs.Prelude.{◌≡◌, IfOk};
ghost use Rattle.std.specs.Option.{option_map};
ghost use Rattle.md_heaps.specs.Entries.{blob, text};
ghost use Rattle.node_model.specs.Cells.{cell_said, guid_cell, reference_cell};
ghost use Rattle.node_model.specs.declared.cell.Cell.TheVariants as cells;
ghost use Rattle.node_read.specs.inner.Opened.{streams_of};

use crate::columns::rows;
use crate::streams::Streams;
use cil_base::{List, NoMemory};
use md_heaps::{GuidAt, blob_at, guid_at, string_at};
use md_schema::{Coded, ColumnKind, decode_reference};
use node_model::Cell;
use std::alloc::Global;

/// The cell of an index of #Strings. None where there is no such text.
fn text_cell(alloc: Global, heap: &[u8], index: u32) -> Result<Option<Cell>, NoMemory>
    ensures { IfOk result (λ cell. cell ≡ option_map cells.Text (text heap.now index)) }
{
    match string_at(heap, index) {
        Some(text) => Ok(Some(Cell::Text(List::from_slice(alloc, text)?))),
        None => Ok(None),
    }
}

/// The cell of an index of #Blob. None where there is no such blob.
fn blob_cell(alloc: Global, heap: &[u8], index: u32) -> Result<Option<Cell>, NoMemory>
    ensures { IfOk result (λ cell. cell ≡ option_map cells.Blob (blob heap.now index)) }
{
    match blob_at(heap, index) {
        Some(bytes) => Ok(Some(Cell::Blob(List::from_slice(alloc, bytes)?))),
        None => Ok(None),
    }
}

/// The cell of an entry of #GUID. None where it is missing.
fn guid_cell(entry: GuidAt) -> Option<Cell>
    ensures { result ≡ guid_cell entry }
{
    match entry {
        GuidAt::Null => Some(Cell::NoGuid),
        GuidAt::Is(bytes) => Some(Cell::Guid(bytes)),
        GuidAt::Missing => None,
    }
}

/// The cell of a stored row. None where it names no table, or a row that its table does not have.
pub(crate) fn reference_cell(streams: &Streams, coded: Coded) -> Option<Cell>
    ensures { result ≡ reference_cell streams.now.tables.now coded }
{
    match coded {
        Coded::Null => Some(Cell::NoRef),
        Coded::Is(token) => {
            if token.rid <= rows(streams, token.table) {
                Some(Cell::Ref(token))
            } else {
                None
            }
        }
        Coded::BadTag(_) => None,
        Coded::Beyond(_) => None,
    }
}

/// What a number says in a column of a kind. None where it is at fault (ECMA-335 II.24.2.6).
pub(crate) fn cell_said(
    alloc: Global,
    streams: &Streams,
    kind: ColumnKind,
    number: u32,
) -> Result<Option<Cell>, NoMemory>
    ensures { IfOk result (λ cell. cell ≡ cell_said (streams_of streams.now) kind number) }
{
    match kind {
        ColumnKind::U8Pad | ColumnKind::U16 | ColumnKind::U32 => {
            Ok(Some(Cell::Num(u64::from(number))))
        }
        ColumnKind::Text => text_cell(alloc, streams.strings, number),
        ColumnKind::Guid => Ok(guid_cell(guid_at(streams.guids, number))),
        ColumnKind::Blob => blob_cell(alloc, streams.blobs, number),
        ColumnKind::Index(_) | ColumnKind::Coded(_) => match decode_reference(kind, number) {
            Some(coded) => Ok(reference_cell(streams, coded)),
            None => Ok(None),
        },
        ColumnKind::Sig | ColumnKind::Start(_) | ColumnKind::Rva | ColumnKind::Offset => Ok(None),
    }
}
