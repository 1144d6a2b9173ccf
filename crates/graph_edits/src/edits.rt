//! What each edit changes.

ghost use Rattle.std.specs.Prelude.{◌≡◌, None};
ghost use Rattle.node_model.specs.EditRefusals.{early_refusal};
ghost use Rattle.node_model.specs.EditWalks.{edit_walk};
ghost use Rattle.node_model.specs.Parts.{Meets};
ghost use Rattle.node_model.specs.Walk.{said};
ghost use Rattle.graph_edits.specs.Graphs.{nodes_in, slots_in};

use crate::change::Changing;
use crate::code_edits::{
    add_handler_change, body_change, head_change, il_insert_change, il_remove_change,
    il_replace_change, remove_handler_change,
};
use crate::graph::EditGraph;
use crate::row_edits::{add_change, insert_change, remove_change};
use crate::value_edits::{data_change, entry_change, resource_change, set_change, sig_change};
use node_model::{Edit, Stop};
use std::alloc::Global;

/// What an edit changes that was not refused before.
#[tactic(auto, unfolding(node_model::specs::EditWalks::edit_walk))]
pub(crate) fn change_of(alloc: Global, graph: &EditGraph, edit: &Edit) -> Result<Changing, Stop>
    requires { early_refusal (nodes_in graph.now) edit.now ≡ None }
    ensures { Meets result (said (slots_in graph.now) (edit_walk (nodes_in graph.now) edit.now)) }
{
    match edit {
        Edit::Set {
            token,
            column,
            cell,
        } => set_change(alloc, graph, *token, *column, cell),
        Edit::SetSig { token, sig } => sig_change(alloc, graph, *token, sig),
        Edit::SetBody { token, body } => body_change(alloc, graph, *token, body),
        Edit::SetData { token, bytes } => data_change(alloc, graph, *token, bytes),
        Edit::SetResource { token, value } => resource_change(alloc, graph, *token, value),
        Edit::SetEntry { token } => entry_change(alloc, graph, *token),
        Edit::Add { table, cells, sig } => add_change(alloc, graph, *table, cells, sig),
        Edit::Insert {
            owner,
            table,
            at,
            cells,
            sig,
        } => insert_change(alloc, graph, *owner, *table, *at, cells, sig),
        Edit::Remove { owner, token } => remove_change(alloc, graph, *owner, *token),
        Edit::IlInsert { token, at, instr } => il_insert_change(alloc, graph, *token, *at, instr),
        Edit::IlRemove { token, at } => il_remove_change(alloc, graph, *token, *at),
        Edit::IlReplace { token, at, instr } => il_replace_change(alloc, graph, *token, *at, instr),
        Edit::IlHead {
            token,
            max_stack,
            init_locals,
            locals,
        } => head_change(alloc, graph, *token, *max_stack, *init_locals, *locals),
        Edit::AddHandler { token, handler } => add_handler_change(alloc, graph, *token, *handler),
        Edit::RemoveHandler { token, at } => remove_handler_change(alloc, graph, *token, *at),
    }
}
