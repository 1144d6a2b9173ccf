//! Which keys an edit looks at.

ghost use Rattle.std.specs.Prelude.{◌≡◌, ◌∷◌, [], IfOk};
ghost use Rattle.node_model.specs.EditNeeds.{edit_needs, remove_needs};
ghost use Rattle.node_model.specs.EditWalks.{edit_walk, remove_walk};
ghost use Rattle.node_model.specs.RowLists.{added_lists};
ghost use Rattle.node_model.specs.Walk.{looked};
ghost use Rattle.md_schema.specs.Tables.{nested_class};
ghost use Rattle.graph_edits.specs.Graphs.{nodes_in, slots_in};
ghost use Rattle.graph_edits.specs.inner.ListWalks.{lists_looked};

use crate::graph::EditGraph;
use crate::lists::{added_lists, look_at_lists};
use crate::row_edits::nesting_lists;
use crate::row_lists::list_key;
use cil_base::{List, NoMemory, Token};
use md_schema::table;
use node_model::{Cell, Edit, Key, row_part};
use std::alloc::Global;

/// One key.
fn one_key(alloc: Global, key: Key) -> Result<List<Key>, NoMemory>
    ensures { IfOk result (λ keys. keys ≡ key ∷ []) }
{
    let mut keys = List::new(alloc);
    keys.push(key)?;
    Ok(keys)
}

/// The keys that Remove's own words name.
fn remove_needs(alloc: Global, owner: Token, token: Token) -> Result<List<Key>, NoMemory>
    ensures { IfOk result (λ keys. keys ≡ remove_needs owner token) }
{
    let mut keys = List::new(alloc);
    if token.table == table::NESTED_CLASS {
        keys.push(Key::Row(token))?;
        keys.push(list_key(owner, token.table))?;
        return Ok(keys);
    }
    keys.push(list_key(owner, token.table))?;
    Ok(keys)
}

/// The keys that the edit's own words name, in the order in which it looks at them.
pub fn needs(alloc: Global, edit: &Edit) -> Result<List<Key>, NoMemory>
    ensures { IfOk result (λ keys. keys ≡ edit_needs edit.now) }
{
    match edit {
        Edit::Set { token, .. } => one_key(alloc, Key::Row(*token)),
        Edit::SetSig { token, .. } => one_key(alloc, Key::Sig(*token)),
        Edit::SetBody { token, .. } => one_key(alloc, Key::Body(*token)),
        Edit::SetData { token, .. } => one_key(alloc, Key::Data(*token)),
        Edit::SetResource { token, .. } => one_key(alloc, Key::Resource(*token)),
        Edit::SetEntry { .. } => one_key(alloc, Key::Facts),
        Edit::Add { table, cells, .. } => added_lists(alloc, *table, cells),
        Edit::Insert { owner, table, .. } => one_key(alloc, Key::Owned(*owner, *table)),
        Edit::Remove { owner, token } => remove_needs(alloc, *owner, *token),
        Edit::IlInsert { token, .. } => one_key(alloc, Key::Body(*token)),
        Edit::IlRemove { token, .. } => one_key(alloc, Key::Body(*token)),
        Edit::IlReplace { token, .. } => one_key(alloc, Key::Body(*token)),
        Edit::IlHead { token, .. } => one_key(alloc, Key::Body(*token)),
        Edit::AddHandler { token, .. } => one_key(alloc, Key::Body(*token)),
        Edit::RemoveHandler { token, .. } => one_key(alloc, Key::Body(*token)),
    }
}

/// The keys among these lists that are looked at.
fn lists_looked(alloc: Global, graph: &EditGraph, keys: &List<Key>) -> Result<List<Key>, NoMemory>
    ensures { IfOk result (λ looked. looked ≡ lists_looked (slots_in graph.now) keys.now) }
{
    let mut looked = List::new(alloc);
    look_at_lists(graph, keys.as_slice(), &mut looked)?;
    Ok(looked)
}

/// The keys that Remove of a NestedClass row looks at.
fn nesting_looked(
    alloc: Global,
    graph: &EditGraph,
    owner: Token,
    token: Token,
) -> Result<List<Key>, NoMemory>
    requires { token.table ≡ nested_class }
    ensures { IfOk result (λ keys. keys ≡ looked (slots_in graph.now) (remove_walk (nodes_in graph.now) owner token)) }
{
    let mut looked = one_key(alloc, Key::Row(token))?;
    let Ok(row) = row_part(&graph.slots, token) else {
        return Ok(looked);
    };
    let keys = nesting_lists(alloc, graph, owner, token, row)?;
    look_at_lists(graph, keys.as_slice(), &mut looked)?;
    Ok(looked)
}

/// The keys that Remove looks at.
#[tactic(auto, using(crate::proofs::ListLemmas::looked_lists))]
fn remove_looked(
    alloc: Global,
    graph: &EditGraph,
    owner: Token,
    token: Token,
) -> Result<List<Key>, NoMemory>
    ensures { IfOk result (λ keys. keys ≡ looked (slots_in graph.now) (remove_walk (nodes_in graph.now) owner token)) }
{
    if token.table == table::NESTED_CLASS {
        return nesting_looked(alloc, graph, owner, token);
    }
    let keys = one_key(alloc, list_key(owner, token.table))?;
    lists_looked(alloc, graph, &keys)
}

/// The keys that Add looks at.
fn add_looked(
    alloc: Global,
    graph: &EditGraph,
    table: u8,
    cells: &List<Cell>,
) -> Result<List<Key>, NoMemory>
    ensures { IfOk result (λ keys. keys ≡ lists_looked (slots_in graph.now) (added_lists table cells.now)) }
{
    let keys = added_lists(alloc, table, cells)?;
    lists_looked(alloc, graph, &keys)
}

/// The keys that an edit looks at, up to the first that has no slot or holds a fault.
#[tactic(auto, unfolding(node_model::specs::EditWalks::edit_walk), using(crate::proofs::ListLemmas::one_looked))]
pub(crate) fn keys_looked(
    alloc: Global,
    graph: &EditGraph,
    edit: &Edit,
) -> Result<List<Key>, NoMemory>
    ensures { IfOk result (λ keys. keys ≡ looked (slots_in graph.now) (edit_walk (nodes_in graph.now) edit.now)) }
{
    match edit {
        Edit::Set { token, .. } => one_key(alloc, Key::Row(*token)),
        Edit::SetSig { token, .. } => one_key(alloc, Key::Sig(*token)),
        Edit::SetBody { token, .. } => one_key(alloc, Key::Body(*token)),
        Edit::SetData { token, .. } => one_key(alloc, Key::Data(*token)),
        Edit::SetResource { token, .. } => one_key(alloc, Key::Resource(*token)),
        Edit::SetEntry { .. } => one_key(alloc, Key::Facts),
        Edit::Add { table, cells, .. } => add_looked(alloc, graph, *table, cells),
        Edit::Insert { owner, table, .. } => one_key(alloc, Key::Owned(*owner, *table)),
        Edit::Remove { owner, token } => remove_looked(alloc, graph, *owner, *token),
        Edit::IlInsert { token, .. } => one_key(alloc, Key::Body(*token)),
        Edit::IlRemove { token, .. } => one_key(alloc, Key::Body(*token)),
        Edit::IlReplace { token, .. } => one_key(alloc, Key::Body(*token)),
        Edit::IlHead { token, .. } => one_key(alloc, Key::Body(*token)),
        Edit::AddHandler { token, .. } => one_key(alloc, Key::Body(*token)),
        Edit::RemoveHandler { token, .. } => one_key(alloc, Key::Body(*token)),
    }
}
