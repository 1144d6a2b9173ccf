ghost use Rattle.std.specs.Prelude.{◌≡◌, ◌==◌, ◌&&◌};
ghost use Rattle.md_schema.specs.Link.{link_column_of, link_table_of};
ghost use Rattle.node_model.specs.KeyKinds.{is_root_token};
ghost use Rattle.node_model.specs.RowCells.{is_link_column};
ghost use Rattle.node_model.specs.RowLists.{added_table, has_list, list_key};

use cil_base::Token;
use md_schema::{Holder, Link, link_column, links, table_holder};
use node_model::{Key, has_kind, is_root_table};

/// Whether this is the root, which is no row.
pub(crate) fn is_root_token(token: Token) -> bool
    ensures { result ≡ is_root_token token }
{
    token.table == 0 && token.rid == 0
}

/// The list of an owner, or of the root, in which rows of a table stand; a NestedClass row is in that of its
/// NestedClass (ECMA-335 II.22).
#[tactic(auto, unfolding(node_model::specs::RowLists::list_key))]
pub(crate) fn list_key(owner: Token, table: u8) -> Key
    ensures { result ≡ list_key owner table }
{
    match table_holder(table) {
        Some(Holder::Link(link)) => Key::Linked(owner, link),
        _ => Key::Owned(owner, table),
    }
}

/// Whether the owner, or the root, has a list of rows of the table.
pub(crate) fn has_list(owner: Token, table: u8) -> bool
    ensures { result ≡ has_list owner table }
{
    has_kind(&list_key(owner, table)) && (!is_root_token(owner) || is_root_table(table))
}

/// Whether rows of the table stand in the list of the root, or in those of the rows that their link columns name, and
/// in none of a row that owns runs.
#[tactic(auto, unfolding(node_model::specs::RowLists::added_table))]
pub(crate) fn added_table(table: u8) -> bool
    ensures { result ≡ added_table table }
{
    matches!(
        table_holder(table),
        Some(Holder::Root) | Some(Holder::Link(_))
    )
}

/// Whether rows of the table belong to the rows that the column names, by its number among all columns of the table.
pub(crate) fn is_link_column(table: u8, column: usize) -> bool
    ensures { result ≡ is_link_column table column }
{
    links().iter().any(|link| reads(*link, table, column))
}

/// Whether the link reads that column of the table.
fn reads(link: Link, table: u8, column: usize) -> bool
    ensures { result ≡ ((link_table_of link == table) && (link_column_of link == column)) }
{
    let place = link_column(link);
    place.table == table && place.column as usize == column
}
