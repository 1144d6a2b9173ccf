ghost use Rattle.std.specs.Prelude.{◌≡◌, ◌<◌, ◌≤◌, ◌^◌, IfOk, IsSome, false};
ghost use Rattle.md_schema.specs.Entry.{start_column_of};
ghost use Rattle.node_model.specs.KeyKinds.{is_root_token};
ghost use Rattle.node_model.specs.Lists.{read_owned, rows_between, run_slot};
ghost use Rattle.md_schema.specs.LinkedRows.{rows_to};
ghost use Rattle.md_schema.specs.Runs.{run_of, table_row_count};
ghost use Rattle.node_read.specs.inner.Opened.{IsRowThere, streams_of};

use crate::columns::rows;
use crate::streams::Streams;
use cil_base::{List, NoMemory, Token};
use md_schema::start_column;
use node_model::{Fault, FaultKind, Key, Slot, Value};
use std::alloc::Global;

/// The rows of a table from one to before the other.
fn rows_between(alloc: Global, table: u8, first: u32, last: u32) -> Result<List<Token>, NoMemory>
    requires rises { first ≤ last }
    requires few { first < last → last ≤ 2 ^ 24 }
    ensures { IfOk result (λ tokens. tokens ≡ rows_between table (first, last)) }
{
    let mut tokens = List::new(alloc);
    for rid in first..last {
        tokens.push(Token { table, rid })?;
    }
    Ok(tokens)
}

/// All rows of a table.
#[tactic(auto, unfolding(md_schema::specs::LinkedRows::rows_to))]
fn all_rows(alloc: Global, streams: &Streams, table: u8) -> Result<List<Token>, NoMemory>
    ensures { IfOk result (λ tokens. tokens ≡ rows_to table (table_row_count streams.now.tables.now table)) }
{
    rows_between(alloc, table, 1, rows(streams, table) + 1)
}

/// The run of rows that a row owns, or BadRange with the number of the column that starts it.
fn run_slot(alloc: Global, streams: &Streams, owner: Token, table: u8) -> Result<Slot, NoMemory>
    requires row { IsRowThere (streams_of streams.now) owner }
    requires owned { IsSome (start_column_of owner.table table) }
    ensures { IfOk result (λ slot. slot ≡ run_slot owner table (run_of streams.now.tables.now owner table)) }
{
    match streams.head.range(streams.tables, owner, table) {
        Some(found) => Ok(Slot::Value(Value::Tokens(rows_between(
            alloc, table, found.0, found.1,
        )?))),
        None => Ok(Slot::Fault(Fault {
            key: Key::Owned(owner, table),
            kind: FaultKind::BadRange,
            column: start_column(owner.table, table).unwrap_or(0),
        })),
    }
}

/// What the list of a table's rows holds that a row owns, or the root (ECMA-335 II.22).
#[tactic(auto, unfolding(node_model::specs::Lists::read_owned))]
pub(crate) fn owned_slot(
    alloc: Global,
    streams: &Streams,
    owner: Token,
    table: u8,
) -> Result<Slot, NoMemory>
    requires row { is_root_token owner ≡ false → IsRowThere (streams_of streams.now) owner }
    requires owned { is_root_token owner ≡ false → IsSome (start_column_of owner.table table) }
    ensures { IfOk result (λ slot. slot ≡ read_owned (streams_of streams.now) owner table) }
{
    if owner.table == 0 && owner.rid == 0 {
        return Ok(Slot::Value(Value::Tokens(all_rows(alloc, streams, table)?)));
    }
    run_slot(alloc, streams, owner, table)
}
