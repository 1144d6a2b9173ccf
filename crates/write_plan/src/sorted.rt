//! The order in which the rows of a table are written: by the number in the link column where the table is sorted
//! (ECMA-335 II.22).

ghost use Rattle.std.specs.Prelude.{◌≡◌, ◌<◌, map, IfOk, IfSome, OnOk};
ghost use Rattle.std.specs.List.{position};
ghost use Rattle.std.specs.Option.{option_copied, option_map};
ghost use Rattle.md_schema.specs.CodedKind.{tables_of};
ghost use Rattle.md_schema.specs.Column.{seen_column};
ghost use Rattle.md_schema.specs.Reference.{is_tag_table};
ghost use Rattle.node_model.specs.declared.value.Value.TheVariants as values;
ghost use Rattle.write_plan.specs.Written.{in_link_order, link_number, named_number, new_token, reference_number};
ghost use Rattle.write_plan.specs.Written.{token_renumbered, sort_link, sorted_by};
ghost use Rattle.write_plan.specs.declared.sorted.LinkedRow.{LinkedRow};
ghost use Rattle.write_plan.specs.inner.Taken.{value_kept};

use crate::held::row_held;
use crate::kept::Kept;
use crate::numbered::NumberedRows;
use crate::row_cells::token_named;
use cil_base::{List, NoMemory, Token};
use md_schema::{
    CodedKind, Column, ColumnKind, Holder, Link, column_at, link_column, table, table_holder,
    tables, tag_bits,
};
use node_model::RowValue;
use std::alloc::Global;

/// A row and the number in its link column.
#[derive(Clone, Copy, Drop)]
pub(crate) struct LinkedRow {
    pub number: u32,
    pub token: Token,
}

/// The token of a row by its new number. `None` exactly where it is not kept.
pub(crate) fn token_renumbered(lists: &List<NumberedRows>, token: Token) -> Option<Token>
    ensures { result ≡ token_renumbered lists.now token }
{
    match lists.as_slice().get(token.table as usize) {
        Some(list) => list.token_renumbered(token),
        None => None,
    }
}

/// The token by its new number; any other as it is.
pub(crate) fn new_token(lists: &List<NumberedRows>, token: Token) -> Token
    ensures { result ≡ new_token lists.now token }
{
    match token_renumbered(lists, token) {
        Some(new) => new,
        None => token,
    }
}

/// The place of a table among the tags of a coded index.
fn tag_place(kind: CodedKind, table: u8) -> Option<usize>
    ensures place { result ≡ position (is_tag_table table) (tables_of kind) }
    ensures bound { IfSome result (λ tag. tag < 32) }
{
    tables(kind).iter().position(|named| *named == Some(table))
}

/// The number that is written of a token in a column that names rows.
fn reference_number(kind: ColumnKind, token: Token) -> u32
    ensures { result ≡ reference_number kind token }
{
    match kind {
        ColumnKind::Index(_) => token.rid,
        ColumnKind::Coded(kind) => {
            let tag = tag_place(kind, token.table).unwrap_or(0);
            token.rid * (1 << tag_bits(kind)) + tag as u32
        }
        _ => 0,
    }
}

/// The link by whose column the rows of a table are sorted. `None` where they are not.
#[tactic(auto, unfolding(crate::specs::Written::sort_link))]
fn sort_link(table: u8) -> Option<Link>
    ensures { result ≡ sort_link table }
{
    if table == table::EVENT_MAP || table == table::PROPERTY_MAP {
        return None;
    }
    match table_holder(table) {
        Some(Holder::Link(link)) => Some(link),
        _ => None,
    }
}

/// The number of the row that a row names in a column.
fn named_number(lists: &List<NumberedRows>, column: Column, row: Option<&RowValue>) -> u32
    ensures { result ≡ named_number lists.now (seen_column column) (option_map values.Row (option_copied row.entry)) }
{
    match row {
        None => 0,
        Some(row) => match token_named(row, column.name.as_bytes()) {
            Some(token) => reference_number(column.kind, new_token(lists, token)),
            None => 0,
        },
    }
}

/// The number in the link column of a row.
#[tactic(auto, unfolding(crate::specs::Written::link_number))]
fn link_number(kept: &Kept, lists: &List<NumberedRows>, link: Link, token: Token) -> u32
    ensures { result ≡ link_number (value_kept kept.now) lists.now link token }
{
    let place = link_column(link);
    match column_at(place.table, place.column) {
        Some(column) => named_number(lists, column, row_held(kept, token)),
        None => 0,
    }
}

/// These rows with the numbers in their link columns.
fn linked_rows(
    alloc: Global,
    kept: &Kept,
    lists: &List<NumberedRows>,
    link: Link,
    rows: &[Token],
) -> Result<Vec<LinkedRow>, NoMemory>
    ensures { IfOk result (λ linked. linked.items
        ≡ map (λ t. record { number = link_number (value_kept kept.now) lists.now link t; token = t }) rows.now) }
{
    let mut linked = Vec::new(alloc);
    for row in rows {
        linked.push(LinkedRow {
            number: link_number(kept, lists, link, *row),
            token: *row,
        })?;
    }
    Ok(linked)
}

/// Sorts rows by their numbers. Rows of one number keep their order.
fn sort(rows: &mut Vec<LinkedRow>) -> Result<(), NoMemory>
    ensures { OnOk result (rows.new.items ≡ sorted_by (λ (r : LinkedRow). r.number) rows.old.items) }
{
    rows.sort_by_key(|row| row.number)?;
    Ok(())
}

/// The tokens of rows.
fn tokens_of(alloc: Global, rows: &[LinkedRow]) -> Result<List<Token>, NoMemory>
    ensures { IfOk result (λ tokens. tokens ≡ map (λ (r : LinkedRow). r.token) rows.now) }
{
    let mut tokens = List::new(alloc);
    for row in rows {
        tokens.push(row.token)?;
    }
    Ok(tokens)
}

/// The rows of a table in the order in which they are written, by the numbers that are given so far.
pub(crate) fn in_link_order(
    alloc: Global,
    kept: &Kept,
    lists: &List<NumberedRows>,
    table: u8,
    rows: &List<Token>,
) -> Result<List<Token>, NoMemory>
    ensures { IfOk result (λ ordered. ordered ≡ in_link_order (value_kept kept.now) lists.now table rows.now) }
{
    match sort_link(table) {
        None => rows.copy(),
        Some(link) => {
            let mut linked = linked_rows(alloc, kept, lists, link, rows.as_slice())?;
            sort(&mut linked)?;
            tokens_of(alloc, linked.as_slice())
        }
    }
}
