//! The lists in which a row stands: which they are, and what they hold (ECMA-335 II.22).

ghost use Rattle.std.specs.Prelude.{◌≡◌, ◌++◌, IfOk, OnOk};
ghost use Rattle.node_model.specs.Nodes.{nodes_there};
ghost use Rattle.node_model.specs.Parts.{Meets};
ghost use Rattle.node_model.specs.RowLists.{added_lists, enclosing_lists};
ghost use Rattle.graph_edits.specs.Graphs.{slots_in};
ghost use Rattle.graph_edits.specs.inner.ListWalks.{list_said, lists_by, lists_looked, lists_said};

use crate::graph::EditGraph;
use crate::row_cells::cell_in;
use cil_base::{List, NoMemory, Token};
use md_schema::{Holder, Link, link_column, links, table_holder};
use node_model::{Cell, Key, RowsThere, Stop, linked_part, may_link, owned_part};
use std::alloc::Global;

/// Adds the lists of the rows that the columns of these links name, as far as they are of the table.
fn add_link_lists(
    table: u8,
    cells: &[Cell],
    links: &[Link],
    keys: &mut List<Key>,
) -> Result<(), NoMemory>
    ensures { OnOk result (keys.new ≡ keys.old ++ lists_by table cells.now links.now) }
{
    let [link, links @ ..] = links else {
        return Ok(());
    };
    let place = link_column(*link);
    if place.table != table {
        return add_link_lists(table, cells, links, keys);
    }
    let Some(Cell::Ref(token)) = cell_in(table, place.column, cells) else {
        return add_link_lists(table, cells, links, keys);
    };
    keys.push(Key::Linked(*token, *link))?;
    add_link_lists(table, cells, links, keys)
}

/// The lists in which a new row is the last: that of the root, or those of the rows that its link columns name.
#[tactic(auto, unfolding(node_model::specs::RowLists::added_lists))]
pub(crate) fn added_lists(
    alloc: Global,
    table: u8,
    cells: &List<Cell>,
) -> Result<List<Key>, NoMemory>
    ensures { IfOk result (λ keys. keys ≡ added_lists table cells.now) }
{
    let mut keys = List::new(alloc);
    if let Some(Holder::Root) = table_holder(table) {
        keys.push(Key::Owned(Token::ROOT, table))?;
        return Ok(keys);
    }
    add_link_lists(table, cells.as_slice(), links(), &mut keys)?;
    Ok(keys)
}

/// Adds the second list of a NestedClass row: that of its EnclosingClass, where that is a row and was not removed
/// (II.22.32).
#[tactic(auto, unfolding(node_model::specs::RowLists::enclosing_lists))]
pub(crate) fn add_enclosing_list(
    rows: &RowsThere,
    table: u8,
    cells: &[Cell],
    keys: &mut List<Key>,
) -> Result<(), NoMemory>
    ensures { OnOk result (keys.new ≡ keys.old ++ enclosing_lists (nodes_there rows.now) table cells.now) }
{
    let Some(Cell::Ref(token)) = cell_in(table, link_column(Link::Nested).column, cells) else {
        return Ok(());
    };
    if rows.is_live(*token) && may_link(token.table, Link::Nested) {
        return keys.push(Key::Linked(*token, Link::Nested));
    }
    Ok(())
}

/// The rows of a list, in a list of its own. A key that is no list has none.
fn list_held(alloc: Global, graph: &EditGraph, key: &Key) -> Result<List<Token>, Stop>
    ensures { Meets result (list_said (slots_in graph.now) key.now) }
{
    match key {
        Key::Owned(token, table) => Ok(owned_part(&graph.slots, *token, *table)?.copy()?),
        Key::Linked(token, link) => Ok(linked_part(&graph.slots, *token, *link)?.copy()?),
        _ => Ok(List::new(alloc)),
    }
}

/// These lists with their rows.
pub(crate) fn lists_held(
    alloc: Global,
    graph: &EditGraph,
    keys: &[Key],
) -> Result<List<(Key, List<Token>)>, Stop>
    ensures { Meets result (lists_said (slots_in graph.now) keys.now) }
{
    let [key, keys @ ..] = keys else {
        return Ok(List::new(alloc));
    };
    let tokens = list_held(alloc, graph, key)?;
    let mut lists = lists_held(alloc, graph, keys)?;
    lists.insert(0, (*key, tokens))?;
    Ok(lists)
}

/// Adds the keys of these lists that are looked at, up to the first that is not filled.
pub(crate) fn look_at_lists(
    graph: &EditGraph,
    keys: &[Key],
    looked: &mut List<Key>,
) -> Result<(), NoMemory>
    ensures { OnOk result (looked.new ≡ looked.old ++ lists_looked (slots_in graph.now) keys.now) }
{
    let [key, keys @ ..] = keys else {
        return Ok(());
    };
    match key {
        Key::Owned(token, table) => {
            looked.push(*key)?;
            let Ok(_) = owned_part(&graph.slots, *token, *table) else {
                return Ok(());
            };
            look_at_lists(graph, keys, looked)
        }
        Key::Linked(token, link) => {
            looked.push(*key)?;
            let Ok(_) = linked_part(&graph.slots, *token, *link) else {
                return Ok(());
            };
            look_at_lists(graph, keys, looked)
        }
        _ => look_at_lists(graph, keys, looked),
    }
}
