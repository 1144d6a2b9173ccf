ghost use Rattle.std.specs.Prelude.{◌≡◌, ◌≤◌, length, Err, IfOk, IsSome, Some};
ghost use Rattle.md_schema.specs.Column.{seen_columns};
ghost use Rattle.md_schema.specs.Entry.{columns_of};
ghost use Rattle.node_model.specs.Rows.{read_row};
ghost use Rattle.node_read.specs.inner.Cells.{cells_from, cells_slot};
ghost use Rattle.node_read.specs.inner.Opened.{IsRowThere, streams_of};

use crate::cell::cell_said;
use crate::columns::number_at;
use crate::streams::Streams;
use cil_base::{List, NoMemory, Token};
use md_schema::{Column, columns, is_cell};
use node_model::{Fault, FaultKind, Key, RowValue, Slot, Value};
use std::alloc::Global;

/// The fault of a row whose cell of this number is at fault.
fn row_fault(token: Token, column: u8) -> Slot
    ensures { result ≡ cells_slot token (Err column) }
{
    Slot::Fault(Fault {
        key: Key::Row(token),
        kind: FaultKind::BadRow,
        column,
    })
}

/// The cells of a row in these columns, which are those of its table, or its fault.
fn read_cells(
    alloc: Global,
    streams: &Streams,
    token: Token,
    columns: &[Column],
) -> Result<Slot, NoMemory>
    requires row { IsRowThere (streams_of streams.now) token }
    requires columns { columns_of token.table ≡ Some (seen_columns columns.now) }
    requires few { length columns.now ≤ 9 }
    ensures { IfOk result (λ slot.
        slot ≡ cells_slot token (cells_from (streams_of streams.now) token 0 (seen_columns columns.now))) }
{
    let mut cells = List::new(alloc);
    for (number, column) in columns.iter().enumerate() {
        if !is_cell(column.kind) {
            continue;
        }
        let value = number_at(streams, token, number as u8);
        let said = cell_said(alloc, streams, column.kind, value)?;
        let Some(cell) = said else {
            return Ok(row_fault(token, number as u8));
        };
        cells.push(cell)?;
    }
    Ok(Slot::Value(Value::Row(RowValue { token, cells })))
}

/// What a row holds: its cells, or BadRow at the first that is at fault (ECMA-335 II.22).
#[tactic(auto, using(crate::proofs::RowLemmas::row_said))]
pub(crate) fn row_slot(alloc: Global, streams: &Streams, token: Token) -> Result<Slot, NoMemory>
    requires row { IsRowThere (streams_of streams.now) token }
    requires table { IsSome (columns_of token.table) }
    ensures { IfOk result (λ slot. slot ≡ read_row (streams_of streams.now) token) }
{
    let Some(columns) = columns(token.table) else {
        unreachable!()
    };
    read_cells(alloc, streams, token, columns)
}
