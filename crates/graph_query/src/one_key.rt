//! Queries that look at one key.

ghost use Rattle.node_model.specs.Parts.{Meets};
ghost use Rattle.node_model.specs.Questions.{key_walk};
ghost use Rattle.node_model.specs.Walk.{said};
ghost use Rattle.graph_query.specs.Answered.{slots_asked};

use crate::graph::QueryGraph;
use cil_base::Token;
use md_schema::Link;
use node_model::{
    Key, Reply, Stop, body_part, data_part, facts_part, linked_part, owned_part, resource_part,
    row_part, sig_part,
};
use std::alloc::Global;

/// The row of a token.
fn row_value(alloc: Global, graph: &QueryGraph, token: Token) -> Result<Reply, Stop>
    ensures { Meets result (said (slots_asked graph.now) (key_walk (Key.Row token))) }
{
    Ok(Reply::Row(row_part(graph.slots, token)?.copy(alloc)?))
}

/// The signature of a row.
fn sig_value(alloc: Global, graph: &QueryGraph, token: Token) -> Result<Reply, Stop>
    ensures { Meets result (said (slots_asked graph.now) (key_walk (Key.Sig token))) }
{
    let sig = sig_part(graph.slots, token)?.copy(alloc)?;
    Ok(Reply::Sig(token, sig))
}

/// The rows of a table that a row owns, or the root.
fn owned_value(graph: &QueryGraph, token: Token, table: u8) -> Result<Reply, Stop>
    ensures { Meets result (said (slots_asked graph.now) (key_walk (Key.Owned token table))) }
{
    let tokens = owned_part(graph.slots, token, table)?.copy()?;
    Ok(Reply::Tokens(Key::Owned(token, table), tokens))
}

/// The rows that belong to a row by a link.
fn linked_value(graph: &QueryGraph, token: Token, link: Link) -> Result<Reply, Stop>
    ensures { Meets result (said (slots_asked graph.now) (key_walk (Key.Linked token link))) }
{
    let tokens = linked_part(graph.slots, token, link)?.copy()?;
    Ok(Reply::Tokens(Key::Linked(token, link), tokens))
}

/// The body of a method.
fn body_value(alloc: Global, graph: &QueryGraph, token: Token) -> Result<Reply, Stop>
    ensures { Meets result (said (slots_asked graph.now) (key_walk (Key.Body token))) }
{
    let body = body_part(graph.slots, token)?.copy(alloc)?;
    Ok(Reply::Body(token, body))
}

/// The data of a FieldRVA row.
fn data_value(graph: &QueryGraph, token: Token) -> Result<Reply, Stop>
    ensures { Meets result (said (slots_asked graph.now) (key_walk (Key.Data token))) }
{
    let bytes = data_part(graph.slots, token)?.copy()?;
    Ok(Reply::Data(token, bytes))
}

/// What a ManifestResource row names.
fn resource_value(alloc: Global, graph: &QueryGraph, token: Token) -> Result<Reply, Stop>
    ensures { Meets result (said (slots_asked graph.now) (key_walk (Key.Resource token))) }
{
    let value = resource_part(graph.slots, token)?.copy(alloc)?;
    Ok(Reply::Resource(token, value))
}

/// What the headers say of the image as a whole.
fn facts_value(graph: &QueryGraph) -> Result<Reply, Stop>
    ensures { Meets result (said (slots_asked graph.now) (key_walk Key.Facts)) }
{
    let facts = facts_part(graph.slots)?.copy()?;
    Ok(Reply::Facts(facts))
}

/// The reply to a query that looks at this key alone.
pub(crate) fn key_value(alloc: Global, graph: &QueryGraph, key: Key) -> Result<Reply, Stop>
    ensures { Meets result (said (slots_asked graph.now) (key_walk key)) }
{
    match key {
        Key::Row(token) => row_value(alloc, graph, token),
        Key::Sig(token) => sig_value(alloc, graph, token),
        Key::Owned(token, table) => owned_value(graph, token, table),
        Key::Linked(token, link) => linked_value(graph, token, link),
        Key::Body(token) => body_value(alloc, graph, token),
        Key::Data(token) => data_value(graph, token),
        Key::Resource(token) => resource_value(alloc, graph, token),
        Key::Facts => facts_value(graph),
    }
}
