//! Which replies fit a question (ECMA-335 II.22, II.23.2).

ghost use Rattle.std.specs.Prelude.{◌≡◌, ◌==◌};
ghost use Rattle.std.specs.List.{list_all};
ghost use Rattle.md_schema.specs.Column.{seen_columns};
ghost use Rattle.md_schema.specs.Link.{link_table_of};
ghost use Rattle.node_model.specs.EditRefusals.{greatest_number};
ghost use Rattle.node_model.specs.Keys.{same_link, same_token};
ghost use Rattle.resolver.specs.Fits.{cells_allowed, find_fits, is_missing, kind_allows, list_fits, name_fits};
ghost use Rattle.resolver.specs.Fits.{reply_fits, row_fits, sig_reply_fits};

use crate::cells::table_columns;
use cil_base::{List, Token};
use md_schema::{Column, ColumnKind, Link, is_cell, link_column, may_name, table};
use node_model::{Cell, Key, Query, Reply, sort_fits};

fn same_token(a: Token, b: Token) -> bool
    ensures { result ≡ same_token a b }
{
    a.table == b.table && a.rid == b.rid
}

fn same_link(a: Link, b: Link) -> bool
    ensures { result ≡ same_link a b }
{
    let a = link_column(a);
    let b = link_column(b);
    a.table == b.table && a.column == b.column
}

/// The greatest number of a column of numbers.
fn greatest_number(kind: ColumnKind) -> Option<u64>
    ensures { result ≡ greatest_number kind }
{
    match kind {
        ColumnKind::U8Pad => Some(u8::MAX as u64),
        ColumnKind::U16 => Some(u16::MAX as u64),
        ColumnKind::U32 => Some(u32::MAX as u64),
        _ => None,
    }
}

/// Whether a column of this kind allows the cell.
fn kind_allows(kind: ColumnKind, cell: &Cell) -> bool
    ensures { result ≡ kind_allows kind cell.now }
{
    match cell {
        Cell::Num(number) => match greatest_number(kind) {
            Some(greatest) => *number <= greatest,
            None => false,
        },
        Cell::Ref(token) => may_name(kind, token.table),
        Cell::Text(_) => matches!(kind, ColumnKind::Text),
        Cell::Guid(_) | Cell::NoGuid => matches!(kind, ColumnKind::Guid),
        Cell::Blob(_) => matches!(kind, ColumnKind::Blob),
        Cell::NoRef => matches!(kind, ColumnKind::Index(_) | ColumnKind::Coded(_)),
    }
}

/// Whether the cells are those of the columns.
#[tactic(auto, unfolding(crate::specs::Fits::cells_allowed))]
fn cells_allowed(columns: &[Column], cells: &[Cell]) -> bool
    ensures { result ≡ cells_allowed (seen_columns columns.now) cells.now }
{
    let [column, columns @ ..] = columns else {
        return matches!(cells, []);
    };
    if !is_cell(column.kind) {
        return cells_allowed(columns, cells);
    }
    match cells {
        [cell, cells @ ..] => kind_allows(column.kind, cell) && cells_allowed(columns, cells),
        [] => false,
    }
}

fn row_fits(token: Token, reply: &Reply) -> bool
    ensures { result ≡ row_fits token reply.now }
{
    match reply {
        Reply::Row(row) => {
            same_token(row.token, token)
                && cells_allowed(table_columns(token.table), row.cells.as_slice())
        }
        _ => false,
    }
}

fn sig_reply_fits(token: Token, reply: &Reply) -> bool
    ensures { result ≡ sig_reply_fits token reply.now }
{
    match reply {
        Reply::Sig(at, sig) => same_token(*at, token) && sort_fits(token.table, sig.tree()),
        _ => false,
    }
}

fn name_fits(token: Token, reply: &Reply) -> bool
    ensures { result ≡ name_fits token reply.now }
{
    match reply {
        Reply::Name(at, _) => same_token(*at, token),
        _ => false,
    }
}

/// Whether these are rows of the table.
fn are_of_table(tokens: &List<Token>, table: u8) -> bool
    ensures { result ≡ list_all (λ t. t.table == table) tokens.now }
{
    tokens.as_slice().iter().all(|token| token.table == table)
}

fn owned_fits(token: Token, table: u8, reply: &Reply) -> bool
    ensures { result ≡ list_fits (Key.Owned token table) table reply.now }
{
    match reply {
        Reply::Tokens(Key::Owned(at, other), tokens) => {
            same_token(*at, token) && *other == table && are_of_table(tokens, table)
        }
        _ => false,
    }
}

fn linked_fits(token: Token, link: Link, reply: &Reply) -> bool
    ensures { result ≡ list_fits (Key.Linked token link) (link_table_of link) reply.now }
{
    match reply {
        Reply::Tokens(Key::Linked(at, other), tokens) => {
            same_token(*at, token)
                && same_link(*other, link)
                && are_of_table(tokens, link_column(link).table)
        }
        _ => false,
    }
}

fn find_fits(table: u8, reply: &Reply) -> bool
    ensures { result ≡ find_fits table reply.now }
{
    match reply {
        Reply::Found(token) => token.table == table,
        Reply::NotFound => true,
        _ => false,
    }
}

/// Whether the reply fits the question.
pub(crate) fn reply_fits(query: &Query, reply: &Reply) -> bool
    ensures { result ≡ reply_fits query.now reply.now }
{
    match query {
        Query::Row(token) => row_fits(*token, reply),
        Query::Sig(token) => sig_reply_fits(*token, reply),
        Query::Name(token) => name_fits(*token, reply),
        Query::Members(token, table) => owned_fits(*token, *table, reply),
        Query::Links(token, link) => linked_fits(*token, *link, reply),
        Query::FindType { .. } => find_fits(table::TYPE_DEF, reply),
        Query::FindMember { table, .. } => find_fits(*table, reply),
        _ => false,
    }
}

/// Whether the reply says that the row is not there.
pub(crate) fn is_missing(token: Token, reply: &Reply) -> bool
    ensures { result ≡ is_missing token reply.now }
{
    match reply {
        Reply::Absent(at) => same_token(*at, token),
        Reply::Removed(at) => same_token(*at, token),
        _ => false,
    }
}
