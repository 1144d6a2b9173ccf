//! What the edits change that make a row, or remove one.

ghost use Rattle.std.specs.Prelude.{◌≡◌, ◌<◌, ◌-◌, ◌^◌, ◌∷◌, IfOk};
ghost use Rattle.node_model.specs.EditWalks.{add_walk, edit_walk, leave_walk, remove_walk};
ghost use Rattle.node_model.specs.Parts.{Meets};
ghost use Rattle.node_model.specs.RowLists.{enclosing_lists, list_key};
ghost use Rattle.node_model.specs.Walk.{said};
ghost use Rattle.node_model.specs.declared.edit.Edit.TheVariants as edits;
ghost use Rattle.graph_edits.specs.Graphs.{nodes_in, slots_in};

use crate::change::Changing;
use crate::graph::EditGraph;
use crate::lists::{add_enclosing_list, added_lists, lists_held};
use crate::row_change::{list_with, lists_with, row_made, row_removed};
use crate::row_lists::list_key;
use cil_base::{List, NoMemory, Token};
use md_schema::table;
use node_model::{Cell, EditRefusal, Key, OptSig, RowValue, Stop, owned_part, row_part};
use std::alloc::Global;

/// What Add changes.
#[tactic(auto, using(crate::proofs::ListLemmas::said_lists))]
pub(crate) fn add_change(
    alloc: Global,
    graph: &EditGraph,
    table: u8,
    cells: &List<Cell>,
    sig: &OptSig,
) -> Result<Changing, Stop>
    requires { (nodes_in graph.now).rows table < 2 ^ 24 - 1 }
    ensures { Meets result (said (slots_in graph.now) (add_walk (nodes_in graph.now) table cells.now sig.now)) }
{
    let keys = added_lists(alloc, table, cells)?;
    let lists = lists_held(alloc, graph, keys.as_slice())?;
    let contents = lists_with(alloc, graph.next_row(table), lists)?;
    Ok(Ok(row_made(alloc, graph, table, cells, sig, contents)?))
}

/// What Insert changes.
#[tactic(auto, unfolding(node_model::specs::EditWalks::edit_walk))]
pub(crate) fn insert_change(
    alloc: Global,
    graph: &EditGraph,
    owner: Token,
    table: u8,
    at: u32,
    cells: &List<Cell>,
    sig: &OptSig,
) -> Result<Changing, Stop>
    requires { (nodes_in graph.now).rows table < 2 ^ 24 - 1 }
    ensures { Meets result (said (slots_in graph.now)
        (edit_walk (nodes_in graph.now) (edits.Insert owner table at cells.now sig.now))) }
{
    let tokens = owned_part(&graph.slots, owner, table)?;
    let place = at as usize;
    if place > tokens.len() {
        return Ok(Err(EditRefusal::PlaceBeyond(u64::from(at), tokens.len() as u64)));
    }
    let key = Key::Owned(owner, table);
    let contents = list_with(alloc, key, place, graph.next_row(table), tokens)?;
    Ok(Ok(row_made(alloc, graph, table, cells, sig, contents)?))
}

/// What changes where a row leaves these lists.
#[tactic(auto, using(crate::proofs::ListLemmas::said_lists))]
fn leave_change(
    alloc: Global,
    graph: &EditGraph,
    token: Token,
    keys: &List<Key>,
) -> Result<Changing, Stop>
    ensures { Meets result (said (slots_in graph.now) (leave_walk token keys.now)) }
{
    let lists = lists_held(alloc, graph, keys.as_slice())?;
    Ok(row_removed(alloc, token, lists)?)
}

/// The lists of a NestedClass row: that of its owner, and that of its EnclosingClass, which the row names.
pub(crate) fn nesting_lists(
    alloc: Global,
    graph: &EditGraph,
    owner: Token,
    token: Token,
    row: &RowValue,
) -> Result<List<Key>, NoMemory>
    ensures { IfOk result (λ keys. keys
        ≡ list_key owner token.table ∷ enclosing_lists (nodes_in graph.now) token.table row.now.cells) }
{
    let mut keys = List::new(alloc);
    keys.push(list_key(owner, token.table))?;
    add_enclosing_list(
        &graph.rows_there(),
        token.table,
        row.cells.as_slice(),
        &mut keys,
    )?;
    Ok(keys)
}

/// What Remove changes.
pub(crate) fn remove_change(
    alloc: Global,
    graph: &EditGraph,
    owner: Token,
    token: Token,
) -> Result<Changing, Stop>
    ensures { Meets result (said (slots_in graph.now) (remove_walk (nodes_in graph.now) owner token)) }
{
    if token.table == table::NESTED_CLASS {
        let row = row_part(&graph.slots, token)?;
        let keys = nesting_lists(alloc, graph, owner, token, row)?;
        return leave_change(alloc, graph, token, &keys);
    }
    let mut keys = List::new(alloc);
    keys.push(list_key(owner, token.table))?;
    leave_change(alloc, graph, token, &keys)
}
