ghost use Rattle.std.specs.Prelude.{◌≡◌, ◌<◌, ◌^◌, IfOk};
ghost use Rattle.std.specs.List.{All};
ghost use Rattle.md_schema.specs.LinkedRows.{linked_of};
ghost use Rattle.md_tables.specs.LinkIndex.{IndexesLinks};
ghost use Rattle.node_model.specs.Lists.{read_linked};
ghost use Rattle.node_read.specs.inner.Opened.{rows_numbered, streams_of};

use crate::streams::Streams;
use cil_base::{List, NoMemory, Token};
use md_schema::{Link, link_column};
use md_tables::LinkIndex;
use node_model::{Slot, Value};
use std::alloc::Global;

/// The rows of a table that have these numbers, in this order.
fn rows_numbered(alloc: Global, table: u8, rids: &[u32]) -> Result<List<Token>, NoMemory>
    requires { All (λ rid. rid < 2 ^ 24) rids.now }
    ensures { IfOk result (λ rows. rows ≡ rows_numbered table rids.now) }
{
    let mut rows = List::new(alloc);
    for rid in rids {
        rows.push(Token { table, rid: *rid })?;
    }
    Ok(rows)
}

/// The rows of the link's table whose column names this row, by the index of the links.
fn indexed_rows(
    alloc: Global,
    streams: &Streams,
    links: &LinkIndex,
    token: Token,
    link: Link,
) -> Result<List<Token>, NoMemory>
    requires { IndexesLinks streams.now.tables.now links.now }
    ensures { IfOk result (λ rows. rows ≡ linked_of streams.now.tables.now token link) }
{
    rows_numbered(alloc, link_column(link).table, links.linked(token, link))
}

/// The rows of the link's table whose column names this row: by the index of the links where there is one, and else by
/// going over the table.
pub(crate) fn linked_rows(
    alloc: Global,
    streams: &Streams,
    token: Token,
    link: Link,
) -> Result<List<Token>, NoMemory>
    ensures { IfOk result (λ rows. rows ≡ linked_of streams.now.tables.now token link) }
{
    match streams.links {
        Some(links) => indexed_rows(alloc, streams, links, token, link),
        None => streams.head.linked(alloc, streams.tables, token, link),
    }
}

/// The rows of the link's table whose column names this row (ECMA-335 II.22).
#[tactic(auto, unfolding(node_model::specs::Lists::read_linked))]
pub(crate) fn linked_slot(
    alloc: Global,
    streams: &Streams,
    token: Token,
    link: Link,
) -> Result<Slot, NoMemory>
    ensures { IfOk result (λ slot. slot ≡ read_linked (streams_of streams.now) token link) }
{
    Ok(Slot::Value(Value::Tokens(linked_rows(alloc, streams, token, link)?)))
}
