//! What the edits of a method's body change. Each edits a copy of the body, so a refusal costs nothing.

ghost use Rattle.node_model.specs.EditWalks.{edit_walk};
ghost use Rattle.node_model.specs.Parts.{Meets};
ghost use Rattle.node_model.specs.Walk.{said};
ghost use Rattle.node_model.specs.declared.edit.Edit.TheVariants as edits;
ghost use Rattle.graph_edits.specs.Graphs.{nodes_in, slots_in};

use crate::change::{Changing, body_put, code_refusal, il_put};
use crate::graph::EditGraph;
use cil_base::Token;
use il_code::{Handler, Instr};
use il_edit::{IlFail, add_handler, insert, remove, remove_handler, replace};
use node_model::{BodyValue, EditRefusal, Stop, body_part};
use std::alloc::Global;

/// What SetBody changes.
#[tactic(auto, unfolding(node_model::specs::EditWalks::edit_walk))]
pub(crate) fn body_change(
    alloc: Global,
    graph: &EditGraph,
    token: Token,
    body: &BodyValue,
) -> Result<Changing, Stop>
    ensures { Meets result (said (slots_in graph.now) (edit_walk (nodes_in graph.now) (edits.SetBody token body.now))) }
{
    body_part(&graph.slots, token)?;
    Ok(body_put(alloc, token, body)?)
}

/// What IlInsert changes.
#[tactic(auto, unfolding(node_model::specs::EditWalks::edit_walk))]
pub(crate) fn il_insert_change(
    alloc: Global,
    graph: &EditGraph,
    token: Token,
    at: u32,
    instr: &Instr,
) -> Result<Changing, Stop>
    ensures { Meets result (said (slots_in graph.now)
        (edit_walk (nodes_in graph.now) (edits.IlInsert token at instr.now))) }
{
    let BodyValue::Il(body) = body_part(&graph.slots, token)? else {
        return Ok(Err(EditRefusal::NotThere(token)));
    };
    let mut body = body.copy()?;
    match insert(&mut body, at, instr.copy()?) {
        Ok(()) => Ok(Ok(il_put(alloc, token, body)?)),
        Err(IlFail::Refused(refusal)) => Ok(Err(code_refusal(refusal))),
        Err(IlFail::NoMemory) => Err(Stop::NoMemory),
    }
}

/// What IlRemove changes.
#[tactic(auto, unfolding(node_model::specs::EditWalks::edit_walk))]
pub(crate) fn il_remove_change(
    alloc: Global,
    graph: &EditGraph,
    token: Token,
    at: u32,
) -> Result<Changing, Stop>
    ensures { Meets result (said (slots_in graph.now) (edit_walk (nodes_in graph.now) (edits.IlRemove token at))) }
{
    let BodyValue::Il(body) = body_part(&graph.slots, token)? else {
        return Ok(Err(EditRefusal::NotThere(token)));
    };
    let mut body = body.copy()?;
    match remove(&mut body, at) {
        Ok(()) => Ok(Ok(il_put(alloc, token, body)?)),
        Err(refusal) => Ok(Err(code_refusal(refusal))),
    }
}

/// What IlReplace changes.
#[tactic(auto, unfolding(node_model::specs::EditWalks::edit_walk))]
pub(crate) fn il_replace_change(
    alloc: Global,
    graph: &EditGraph,
    token: Token,
    at: u32,
    instr: &Instr,
) -> Result<Changing, Stop>
    ensures { Meets result (said (slots_in graph.now)
        (edit_walk (nodes_in graph.now) (edits.IlReplace token at instr.now))) }
{
    let BodyValue::Il(body) = body_part(&graph.slots, token)? else {
        return Ok(Err(EditRefusal::NotThere(token)));
    };
    let mut body = body.copy()?;
    match replace(&mut body, at, instr.copy()?) {
        Ok(()) => Ok(Ok(il_put(alloc, token, body)?)),
        Err(refusal) => Ok(Err(code_refusal(refusal))),
    }
}

/// What IlHead changes.
#[tactic(auto, unfolding(node_model::specs::EditWalks::edit_walk))]
pub(crate) fn head_change(
    alloc: Global,
    graph: &EditGraph,
    token: Token,
    max_stack: u16,
    init_locals: bool,
    locals: Token,
) -> Result<Changing, Stop>
    ensures { Meets result (said (slots_in graph.now)
        (edit_walk (nodes_in graph.now) (edits.IlHead token max_stack init_locals locals))) }
{
    let BodyValue::Il(body) = body_part(&graph.slots, token)? else {
        return Ok(Err(EditRefusal::NotThere(token)));
    };
    let mut body = body.copy()?;
    body.max_stack = max_stack;
    body.init_locals = init_locals;
    body.locals = locals;
    Ok(Ok(il_put(alloc, token, body)?))
}

/// What AddHandler changes.
#[tactic(auto, unfolding(node_model::specs::EditWalks::edit_walk))]
pub(crate) fn add_handler_change(
    alloc: Global,
    graph: &EditGraph,
    token: Token,
    handler: Handler,
) -> Result<Changing, Stop>
    ensures { Meets result (said (slots_in graph.now)
        (edit_walk (nodes_in graph.now) (edits.AddHandler token handler))) }
{
    let BodyValue::Il(body) = body_part(&graph.slots, token)? else {
        return Ok(Err(EditRefusal::NotThere(token)));
    };
    let mut body = body.copy()?;
    match add_handler(&mut body, handler) {
        Ok(()) => Ok(Ok(il_put(alloc, token, body)?)),
        Err(IlFail::Refused(refusal)) => Ok(Err(code_refusal(refusal))),
        Err(IlFail::NoMemory) => Err(Stop::NoMemory),
    }
}

/// What RemoveHandler changes.
#[tactic(auto, unfolding(node_model::specs::EditWalks::edit_walk))]
pub(crate) fn remove_handler_change(
    alloc: Global,
    graph: &EditGraph,
    token: Token,
    at: u32,
) -> Result<Changing, Stop>
    ensures { Meets result (said (slots_in graph.now) (edit_walk (nodes_in graph.now) (edits.RemoveHandler token at))) }
{
    let BodyValue::Il(body) = body_part(&graph.slots, token)? else {
        return Ok(Err(EditRefusal::NotThere(token)));
    };
    let mut body = body.copy()?;
    match remove_handler(&mut body, at) {
        Ok(()) => Ok(Ok(il_put(alloc, token, body)?)),
        Err(refusal) => Ok(Err(code_refusal(refusal))),
    }
}
