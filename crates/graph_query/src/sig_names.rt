//! Signatures with the names of their types (ECMA-335 II.23.2).

ghost use Rattle.std.specs.Prelude.{◌≡◌, IfOk, length};
ghost use Rattle.node_model.specs.Parts.{Meets};
ghost use Rattle.node_model.specs.RowNames.{named_in_sig, sig_walk, type_name_walk};
ghost use Rattle.node_model.specs.Walk.{each_walk, said};
ghost use Rattle.graph_query.specs.Answered.{nodes_asked, slots_asked};

use crate::graph::QueryGraph;
use crate::type_names::name_of_type;
use cil_base::{Bytes, List, Token};
use md_schema::table;
use node_model::{Stop, sig_part};
use sig_text::print_named;
use sig_tree::sig_tokens;
use std::alloc::Global;

/// The name of a type in a signature; that of a TypeSpec row is its token.
fn named_in_sig(alloc: Global, graph: &QueryGraph, depth: u32, token: Token) -> Result<Bytes, Stop>
    ensures { Meets result (said (slots_asked graph.now)
        (named_in_sig (nodes_asked graph.now) (type_name_walk (nodes_asked graph.now) depth) token)) }
{
    if graph.is_member(table::TYPE_SPEC, token) {
        return Ok(List::from_slice(alloc, &token.hex_digits())?);
    }
    name_of_type(alloc, graph, depth, Some(token))
}

/// The names of types in a signature, in order.
fn names_in_sig(
    alloc: Global,
    graph: &QueryGraph,
    depth: u32,
    tokens: &[Token],
) -> Result<List<Bytes>, Stop>
    ensures names { Meets result (said (slots_asked graph.now)
        (each_walk (named_in_sig (nodes_asked graph.now) (type_name_walk (nodes_asked graph.now) depth)) tokens.now)) }
    ensures count { IfOk result (λ names. length names ≡ length tokens.now) }
{
    let mut names = List::new(alloc);
    for token in tokens {
        match named_in_sig(alloc, graph, depth, *token) {
            Ok(name) => names.push(name)?,
            Err(stop) => return Err(stop),
        }
    }
    Ok(names)
}

/// The signature of a row with the names of its types, with at most `depth` names in one another for each.
#[tactic(auto, unfolding(node_model::specs::RowNames::sig_walk), using(node_model::proofs::SayLemmas::said_then))]
pub(crate) fn sig_name(
    alloc: Global,
    graph: &QueryGraph,
    depth: u32,
    token: Token,
) -> Result<Bytes, Stop>
    ensures { Meets result (said (slots_asked graph.now)
        (sig_walk (nodes_asked graph.now) (type_name_walk (nodes_asked graph.now) depth) token)) }
{
    let sig = sig_part(graph.slots, token)?;
    let tokens = sig_tokens(alloc, sig)?;
    let names = names_in_sig(alloc, graph, depth, tokens.as_slice())?;
    Ok(print_named(alloc, sig, &names)?)
}
