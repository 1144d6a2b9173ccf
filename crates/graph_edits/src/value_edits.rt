//! What the edits change that put another value into one key.

ghost use Rattle.node_model.specs.EditWalks.{edit_walk};
ghost use Rattle.node_model.specs.Parts.{Meets};
ghost use Rattle.node_model.specs.Walk.{said};
ghost use Rattle.node_model.specs.declared.edit.Edit.TheVariants as edits;
ghost use Rattle.graph_edits.specs.Graphs.{nodes_in, slots_in};

use crate::change::{Changing, cell_put, entry_put, puts};
use crate::graph::EditGraph;
use cil_base::{Bytes, Token};
use node_model::{
    Cell, Key, ResourceValue, Stop, Value, data_part, facts_part, resource_part, row_part, sig_part,
};
use sig_tree::Sig;
use std::alloc::Global;

/// What Set changes.
#[tactic(auto, unfolding(node_model::specs::EditWalks::edit_walk))]
pub(crate) fn set_change(
    alloc: Global,
    graph: &EditGraph,
    token: Token,
    column: u8,
    cell: &Cell,
) -> Result<Changing, Stop>
    ensures { Meets result (said (slots_in graph.now)
        (edit_walk (nodes_in graph.now) (edits.Set token column cell.now))) }
{
    let row = row_part(&graph.slots, token)?;
    Ok(Ok(cell_put(alloc, token, column, cell, row)?))
}

/// What SetSig changes.
#[tactic(auto, unfolding(node_model::specs::EditWalks::edit_walk))]
pub(crate) fn sig_change(
    alloc: Global,
    graph: &EditGraph,
    token: Token,
    sig: &Sig,
) -> Result<Changing, Stop>
    ensures { Meets result (said (slots_in graph.now) (edit_walk (nodes_in graph.now) (edits.SetSig token sig.now))) }
{
    sig_part(&graph.slots, token)?;
    let sig = sig.copy(alloc)?;
    Ok(Ok(puts(alloc, Key::Sig(token), Value::Sig(sig))?))
}

/// What SetData changes.
#[tactic(auto, unfolding(node_model::specs::EditWalks::edit_walk))]
pub(crate) fn data_change(
    alloc: Global,
    graph: &EditGraph,
    token: Token,
    bytes: &Bytes,
) -> Result<Changing, Stop>
    ensures { Meets result (said (slots_in graph.now)
        (edit_walk (nodes_in graph.now) (edits.SetData token bytes.now))) }
{
    data_part(&graph.slots, token)?;
    let bytes = bytes.copy()?;
    Ok(Ok(puts(alloc, Key::Data(token), Value::Data(bytes))?))
}

/// What SetResource changes.
#[tactic(auto, unfolding(node_model::specs::EditWalks::edit_walk))]
pub(crate) fn resource_change(
    alloc: Global,
    graph: &EditGraph,
    token: Token,
    value: &ResourceValue,
) -> Result<Changing, Stop>
    ensures { Meets result (said (slots_in graph.now)
        (edit_walk (nodes_in graph.now) (edits.SetResource token value.now))) }
{
    resource_part(&graph.slots, token)?;
    let value = value.copy(alloc)?;
    Ok(Ok(puts(alloc, Key::Resource(token), Value::Resource(value))?))
}

/// What SetEntry changes.
#[tactic(auto, unfolding(node_model::specs::EditWalks::edit_walk))]
pub(crate) fn entry_change(alloc: Global, graph: &EditGraph, token: Token) -> Result<Changing, Stop>
    ensures { Meets result (said (slots_in graph.now) (edit_walk (nodes_in graph.now) (edits.SetEntry token))) }
{
    let facts = facts_part(&graph.slots)?;
    Ok(Ok(entry_put(alloc, token, facts)?))
}
