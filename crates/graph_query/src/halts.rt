//! Where queries with large replies end early. This is looked for before anything is copied, so that no reply is made
//! where a key is lacking.

ghost use Rattle.std.specs.Prelude.{◌≡◌};
ghost use Rattle.node_model.specs.Parts.{part_at};
ghost use Rattle.node_model.specs.RowNames.{live_members};
ghost use Rattle.node_model.specs.TypeViews.{members_walk, method_walk, row_walk, type_walk};
ghost use Rattle.node_model.specs.Walk.{each_walk, said};
ghost use Rattle.node_model.specs.declared.key.Key.TheVariants as keys;
ghost use Rattle.graph_query.specs.Answered.{nodes_asked, slots_asked};
ghost use Rattle.graph_query.specs.inner.Halts.{halt_of};

use crate::graph::QueryGraph;
use cil_base::Token;
use md_schema::{Link, table};
use node_model::{Halt, body_part, linked_part, owned_part, row_part, sig_part};

/// Why the row of a token is not there.
fn row_halt(graph: &QueryGraph, token: Token) -> Option<Halt>
    ensures { result ≡ halt_of (part_at graph.now.slots.now (keys.Row token)) }
{
    match row_part(graph.slots, token) {
        Ok(_) => None,
        Err(halt) => Some(halt),
    }
}

/// Why the signature of a row is not there.
fn sig_halt(graph: &QueryGraph, token: Token) -> Option<Halt>
    ensures { result ≡ halt_of (part_at graph.now.slots.now (keys.Sig token)) }
{
    match sig_part(graph.slots, token) {
        Ok(_) => None,
        Err(halt) => Some(halt),
    }
}

/// Why the rows that belong to a row by a link are not there.
fn linked_halt(graph: &QueryGraph, token: Token, link: Link) -> Option<Halt>
    ensures { result ≡ halt_of (part_at graph.now.slots.now (keys.Linked token link)) }
{
    match linked_part(graph.slots, token, link) {
        Ok(_) => None,
        Err(halt) => Some(halt),
    }
}

/// Why the body of a method is not there.
fn body_halt(graph: &QueryGraph, token: Token) -> Option<Halt>
    ensures { result ≡ halt_of (part_at graph.now.slots.now (keys.Body token)) }
{
    match body_part(graph.slots, token) {
        Ok(_) => None,
        Err(halt) => Some(halt),
    }
}

/// Why the first of these members is not there that is not.
fn rows_halt(graph: &QueryGraph, table: u8, tokens: &[Token]) -> Option<Halt>
    ensures { result ≡ halt_of (said (slots_asked graph.now)
        (each_walk row_walk (live_members (nodes_asked graph.now) table tokens.now))) }
{
    for token in tokens {
        if graph.is_member(table, *token) {
            if let Some(halt) = row_halt(graph, *token) {
                return Some(halt);
            }
        }
    }
    None
}

/// Why the members of a row are not all there.
fn members_halt(graph: &QueryGraph, token: Token, table: u8) -> Option<Halt>
    ensures { result ≡ halt_of (said (slots_asked graph.now) (members_walk (nodes_asked graph.now) token table)) }
{
    match owned_part(graph.slots, token, table) {
        Ok(tokens) => rows_halt(graph, table, tokens.as_slice()),
        Err(halt) => Some(halt),
    }
}

/// Why a type and its members are not all there.
#[tactic(auto, using(crate::proofs::HaltLemmas::type_halts))]
pub(crate) fn type_halt(graph: &QueryGraph, token: Token) -> Option<Halt>
    ensures { result ≡ halt_of (said (slots_asked graph.now) (type_walk (nodes_asked graph.now) token)) }
{
    if let Some(halt) = row_halt(graph, token) {
        return Some(halt);
    }
    if let Some(halt) = members_halt(graph, token, table::FIELD) {
        return Some(halt);
    }
    if let Some(halt) = members_halt(graph, token, table::METHOD_DEF) {
        return Some(halt);
    }
    if let Some(halt) = linked_halt(graph, token, Link::InterfaceImpl) {
        return Some(halt);
    }
    linked_halt(graph, token, Link::Nested)
}

/// Why a method, its parameters and its body are not all there.
#[tactic(auto, using(crate::proofs::HaltLemmas::method_halts))]
pub(crate) fn method_halt(graph: &QueryGraph, token: Token) -> Option<Halt>
    ensures { result ≡ halt_of (said (slots_asked graph.now) (method_walk (nodes_asked graph.now) token)) }
{
    if let Some(halt) = row_halt(graph, token) {
        return Some(halt);
    }
    if let Some(halt) = sig_halt(graph, token) {
        return Some(halt);
    }
    if let Some(halt) = members_halt(graph, token, table::PARAM) {
        return Some(halt);
    }
    body_halt(graph, token)
}
