ghost use Rattle.std.specs.Prelude.{◌≡◌, ◌<◌, ◌==◌, ℕ, false, IfNone, IfOk, IfSome};
ghost use Rattle.md_schema.specs.Layout.{OpensTables};
ghost use Rattle.md_schema.specs.Reference.{is_named};
ghost use Rattle.md_schema.specs.declared.column.ColumnKind.TheVariants.{Coded as Choice, Index};
ghost use Rattle.md_tables.specs.LinkIndex.{IndexesLinks, ListsLink, link_place_of, rids_in};

use crate::link_list::LinkList;
use crate::link_row::LinkRow;
use crate::tables::Tables;
use cil_base::{NoMemory, Token};
use md_schema::{CodedKind, ColumnKind, Link, encode_coded, link_column, link_kind, links, names};
use std::alloc::Global;
use std::marker::Model;

/// For each link the rows of its table, so that those which belong to a token are found without going over the table.
#[derive(Drop)]
pub struct LinkIndex {
    lists: Vec<LinkList>,
}

impl Model for LinkIndex {
    ghost use Rattle.std.specs.Prelude.{◌≡◌, List, length};
    ghost use Rattle.md_tables.specs.declared.link_row.LinkRow.{LinkRow};

    ghost Value = { List (List LinkRow) };

    ghost view = { λ i. i.lists.items };

    ghost invariant = { λ i. length i.lists.items ≡ 17 };
}

impl LinkIndex {
    /// Makes the index of a tables stream. Asks for the stream from which the tables were opened. It takes 8 bytes for each
    /// row and link.
    pub fn open(alloc: Global, tables: &Tables, stream: &[u8]) -> Result<LinkIndex, NoMemory>
        requires { OpensTables stream.now tables.now }
        ensures { IfOk result (IndexesLinks stream.now) }
    {
        let mut lists = Vec::new(alloc);
        for link in links() {
            let list = link_list(alloc, tables, stream, *link)?;
            lists.push(list)?;
        }
        Ok(LinkIndex { lists })
    }

    /// Returns the numbers of the rows of the link's table whose link column decodes to exactly this token, in row order.
    pub fn linked(&self, token: Token, link: Link) -> &[u32]
        ensures { result.now ≡ rids_in self.now token link }
    {
        match spelled(link_kind(link), token) {
            Some(number) => self.lists[link_place(link)].at(number),
            None => &[],
        }
    }
}

/// Returns the place of a link among all.
fn link_place(link: Link) -> usize
    ensures place { result ≡ link_place_of link }
    ensures within { result < 17 }
{
    link as usize
}

/// Returns the number of a column that decodes to exactly this token. `None` exactly where there is none.
fn spelled(kind: ColumnKind, token: Token) -> Option<u32>
    ensures some { IfSome result (λ number. (n : ℕ) → is_named kind n token ≡ (n == number)) }
    ensures none { IfNone result ((n : ℕ) → is_named kind n token ≡ false) }
{
    match kind {
        ColumnKind::Coded(kind) => spelled_coded(kind, token),
        ColumnKind::Index(table) => spelled_index(table, token),
        _ => None,
    }
}

/// Returns the coded index that decodes to exactly this token.
fn spelled_coded(kind: CodedKind, token: Token) -> Option<u32>
    ensures some { IfSome result (λ number. (n : ℕ) → is_named (Choice kind) n token ≡ (n == number)) }
    ensures none { IfNone result ((n : ℕ) → is_named (Choice kind) n token ≡ false) }
{
    let number = encode_coded(kind, token)?;
    if names(ColumnKind::Coded(kind), number, token) {
        Some(number)
    } else {
        None
    }
}

/// Returns the index into the table that decodes to exactly this token.
fn spelled_index(table: u8, token: Token) -> Option<u32>
    ensures some { IfSome result (λ number. (n : ℕ) → is_named (Index table) n token ≡ (n == number)) }
    ensures none { IfNone result ((n : ℕ) → is_named (Index table) n token ≡ false) }
{
    if token.table == table && token.rid != 0 {
        Some(token.rid)
    } else {
        None
    }
}

/// Returns the rows of the link's table, in order.
fn link_list(
    alloc: Global,
    tables: &Tables,
    stream: &[u8],
    link: Link,
) -> Result<LinkList, NoMemory>
    requires { OpensTables stream.now tables.now }
    ensures { IfOk result (ListsLink stream.now link) }
{
    let count = tables.rows(link_column(link).table);
    if count == 0 {
        return LinkList::from_rows(alloc, Vec::new(alloc));
    }
    let places = tables.link_places(stream, link);
    let mut rows = Vec::with_capacity(alloc, count as usize)?;
    for rid in 1..count + 1 {
        let number = places.number(stream, rid);
        rows.push(LinkRow { number, rid })?;
    }
    LinkList::from_rows(alloc, rows)
}
