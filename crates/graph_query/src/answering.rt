ghost use Rattle.std.specs.Prelude.{◌≡◌, IfOk, None};
ghost use Rattle.node_model.specs.Parts.{Meets};
ghost use Rattle.node_model.specs.Questions.{query_key, query_walk, several_walk};
ghost use Rattle.node_model.specs.Walk.{said};
ghost use Rattle.graph_query.specs.Answered.{nodes_asked, query_answer, slots_asked};

use crate::graph::QueryGraph;
use crate::names::name;
use crate::one_key::key_value;
use crate::searches::{find_member, find_type};
use crate::views::{method, type_info};
use cil_base::{NoMemory, Token};
use node_model::{Halt, Key, Query, Reply, Stop};
use std::alloc::Global;

/// What is answered to a query.
#[derive(Drop)]
pub enum Peek {
    /// The reply.
    Ready(Reply),
    /// The first key that the query looks at and that has no slot.
    Need(Key),
}

impl Peek {
    /// An equal answer of its own.
    pub fn copy(&self, alloc: Global) -> Result<Peek, NoMemory>
        ensures { IfOk result (λ copy. copy ≡ self.now) }
    {
        match self {
            Peek::Ready(reply) => Ok(Peek::Ready(reply.copy(alloc)?)),
            Peek::Need(key) => Ok(Peek::Need(*key)),
        }
    }
}

/// The name of a row, as a reply.
#[tactic(auto, using(node_model::proofs::SayLemmas::said_then))]
fn name_reply(alloc: Global, graph: &QueryGraph, token: Token) -> Result<Reply, Stop>
    ensures { Meets result (said (slots_asked graph.now)
        (several_walk (nodes_asked graph.now) graph.now.fills (Query.Name token))) }
{
    Ok(Reply::Name(token, name(alloc, graph, token)?))
}

/// The reply to a query that looks at no single key.
fn several_reply(alloc: Global, graph: &QueryGraph, query: &Query) -> Result<Reply, Stop>
    ensures { Meets result (said (slots_asked graph.now)
        (several_walk (nodes_asked graph.now) graph.now.fills query.now)) }
{
    match query {
        Query::Name(token) => name_reply(alloc, graph, *token),
        Query::TypeInfo(token) => type_info(alloc, graph, *token),
        Query::Method(token) => method(alloc, graph, *token),
        Query::FindType { namespace, name } => {
            find_type(graph, namespace.as_slice(), name.as_slice())
        }
        Query::FindMember {
            of,
            table,
            name,
            sig,
        } => find_member(alloc, graph, *of, *table, name.as_slice(), sig),
        _ => Ok(Reply::Filled(graph.fills)),
    }
}

/// What the keys of a query say.
#[tactic(auto, unfolding(node_model::specs::Questions::query_walk))]
fn reply(alloc: Global, graph: &QueryGraph, query: &Query) -> Result<Reply, Stop>
    ensures { Meets result (said (slots_asked graph.now)
        (query_walk (nodes_asked graph.now) graph.now.fills query.now)) }
{
    match query.key() {
        Some(key) => key_value(alloc, graph, key),
        None => several_reply(alloc, graph, query),
    }
}

/// What is answered to a query: `Need` of the first key that it looks at and that has no slot, and `Ready` with the reply
/// where there is none. `Absent`, `Removed` and `WrongKind` come before any key is looked at, in this order, and `Fault`
/// is that of the first key that holds one.
#[tactic(auto, unfolding(crate::specs::Answered::query_answer))]
pub fn answer(alloc: Global, graph: &QueryGraph, query: &Query) -> Result<Peek, NoMemory>
    ensures { IfOk result (λ answer. answer
        ≡ query_answer (nodes_asked graph.now) (slots_asked graph.now) graph.now.fills query.now) }
{
    if let Some(early) = graph.early_reply(query) {
        return Ok(Peek::Ready(early));
    }
    match reply(alloc, graph, query) {
        Ok(reply) => Ok(Peek::Ready(reply)),
        Err(Stop::Halted(Halt::Faulty(fault))) => Ok(Peek::Ready(Reply::Fault(fault))),
        Err(Stop::Halted(Halt::Lacks(key))) => Ok(Peek::Need(key)),
        Err(Stop::NoMemory) => Err(NoMemory),
    }
}
