//! A type with its members, and a method with its parameters and its body (ECMA-335 II.22.26, II.22.37).

ghost use Rattle.std.specs.Prelude.{◌≡◌, IfOk};
ghost use Rattle.node_model.specs.Parts.{Meets};
ghost use Rattle.node_model.specs.RowNames.{live_members};
ghost use Rattle.node_model.specs.TypeViews.{members_walk, method_walk, row_walk, type_walk};
ghost use Rattle.node_model.specs.Walk.{each_walk, said};
ghost use Rattle.graph_query.specs.Answered.{nodes_asked, slots_asked};
ghost use Rattle.graph_query.specs.inner.Parts.{method_reply};

use crate::graph::QueryGraph;
use crate::halts::{method_halt, type_halt};
use cil_base::{List, NoMemory, Token};
use md_schema::{Link, table};
use node_model::{
    BodyValue, MethodView, Reply, RowValue, Stop, TypeView, body_part, linked_part, owned_part,
    row_part, sig_part,
};
use sig_tree::Sig;
use std::alloc::Global;

/// The rows of a table among these tokens, but for those that were removed.
fn live_rows(
    alloc: Global,
    graph: &QueryGraph,
    table: u8,
    tokens: &[Token],
) -> Result<List<RowValue>, Stop>
    ensures { Meets result (said (slots_asked graph.now)
        (each_walk row_walk (live_members (nodes_asked graph.now) table tokens.now))) }
{
    let mut rows = List::new(alloc);
    for token in tokens {
        if graph.is_member(table, *token) {
            rows.push(row_part(graph.slots, *token)?.copy(alloc)?)?;
        }
    }
    Ok(rows)
}

/// The rows of a table that a row owns, but for those that were removed.
fn members(
    alloc: Global,
    graph: &QueryGraph,
    token: Token,
    table: u8,
) -> Result<List<RowValue>, Stop>
    ensures { Meets result (said (slots_asked graph.now) (members_walk (nodes_asked graph.now) token table)) }
{
    let tokens = owned_part(graph.slots, token, table)?;
    live_rows(alloc, graph, table, tokens.as_slice())
}

/// A type by its parts.
#[tactic(auto, unfolding(node_model::specs::TypeViews::type_walk), using(node_model::proofs::SayLemmas::said_then))]
fn type_parts(alloc: Global, graph: &QueryGraph, token: Token) -> Result<Reply, Stop>
    ensures { Meets result (said (slots_asked graph.now) (type_walk (nodes_asked graph.now) token)) }
{
    let row = row_part(graph.slots, token)?.copy(alloc)?;
    let fields = members(alloc, graph, token, table::FIELD)?;
    let methods = members(alloc, graph, token, table::METHOD_DEF)?;
    let interfaces = linked_part(graph.slots, token, Link::InterfaceImpl)?.copy()?;
    let nested = linked_part(graph.slots, token, Link::Nested)?.copy()?;
    Ok(Reply::TypeInfo(TypeView {
        row,
        fields,
        methods,
        interfaces,
        nested,
    }))
}

/// A type with its members. Nothing is copied where a key is lacking.
#[tactic(auto, using(crate::proofs::HaltLemmas::halt_said))]
pub(crate) fn type_info(alloc: Global, graph: &QueryGraph, token: Token) -> Result<Reply, Stop>
    ensures { Meets result (said (slots_asked graph.now) (type_walk (nodes_asked graph.now) token)) }
{
    match type_halt(graph, token) {
        Some(halt) => Err(Stop::Halted(halt)),
        None => type_parts(alloc, graph, token),
    }
}

/// A method by its parts, which are copied.
fn method_reply(
    alloc: Global,
    row: &RowValue,
    sig: &Sig,
    params: List<RowValue>,
    body: &BodyValue,
) -> Result<Reply, NoMemory>
    ensures { IfOk result (λ reply. reply ≡ method_reply row.now sig.now params body.now) }
{
    let row = row.copy(alloc)?;
    let sig = sig.copy(alloc)?;
    let body = body.copy(alloc)?;
    Ok(Reply::Method(MethodView {
        row,
        sig,
        params,
        body,
    }))
}

/// A method by what its keys hold.
#[tactic(auto, unfolding(node_model::specs::TypeViews::method_walk), using(node_model::proofs::SayLemmas::said_then))]
fn method_parts(alloc: Global, graph: &QueryGraph, token: Token) -> Result<Reply, Stop>
    ensures { Meets result (said (slots_asked graph.now) (method_walk (nodes_asked graph.now) token)) }
{
    let row = row_part(graph.slots, token)?;
    let sig = sig_part(graph.slots, token)?;
    let params = members(alloc, graph, token, table::PARAM)?;
    let body = body_part(graph.slots, token)?;
    Ok(method_reply(alloc, row, sig, params, body)?)
}

/// A method with its parameters and its body. Nothing is copied where a key is lacking.
#[tactic(auto, using(crate::proofs::HaltLemmas::halt_said))]
pub(crate) fn method(alloc: Global, graph: &QueryGraph, token: Token) -> Result<Reply, Stop>
    ensures { Meets result (said (slots_asked graph.now) (method_walk (nodes_asked graph.now) token)) }
{
    match method_halt(graph, token) {
        Some(halt) => Err(Stop::Halted(halt)),
        None => method_parts(alloc, graph, token),
    }
}
