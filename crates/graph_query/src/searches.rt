//! A type and a member looked for by their names, one row after the other (ECMA-335 II.22.15, II.22.26, II.22.37).

ghost use Rattle.std.specs.Prelude.{◌≡◌, Err, MatchResult, Ok};
ghost use Rattle.md_schema.specs.Tables.{type_def};
ghost use Rattle.node_model.specs.Parts.{Meets};
ghost use Rattle.node_model.specs.Searches.{find_member_walk, find_type_walk, first_walk, member_test, sig_test, type_test};
ghost use Rattle.node_model.specs.RowNames.{live_members};
ghost use Rattle.node_model.specs.Walk.{said};
ghost use Rattle.graph_query.specs.Answered.{nodes_asked, slots_asked};
ghost use Rattle.graph_query.specs.inner.Parts.{member_said};

use crate::graph::QueryGraph;
use crate::names::name;
use crate::row_texts::text_named;
use cil_base::Token;
use md_schema::table;
use node_model::{Halt, OptText, Reply, Stop, owned_part, row_part};
use std::alloc::Global;

/// Whether a type has this namespace and this name.
fn type_fits(
    graph: &QueryGraph,
    token: Token,
    namespace: &[u8],
    type_name: &[u8],
) -> Result<bool, Halt>
    ensures { MatchResult result
        (λ fits. said (slots_asked graph.now) (type_test namespace.now type_name.now token) ≡ Ok fits)
        (λ halt. said (slots_asked graph.now) (type_test namespace.now type_name.now token) ≡ Err halt) }
{
    let row = row_part(graph.slots, token)?;
    Ok(text_named(row, b"Namespace") == namespace && text_named(row, b"Name") == type_name)
}

/// The first of these types that has this namespace and this name.
fn first_type(
    graph: &QueryGraph,
    tokens: &[Token],
    namespace: &[u8],
    type_name: &[u8],
) -> Result<Reply, Stop>
    ensures { Meets result (said (slots_asked graph.now) (first_walk (type_test namespace.now type_name.now)
        (live_members (nodes_asked graph.now) type_def tokens.now))) }
{
    for token in tokens {
        if graph.is_member(table::TYPE_DEF, *token) {
            if type_fits(graph, *token, namespace, type_name)? {
                return Ok(Reply::Found(*token));
            }
        }
    }
    Ok(Reply::NotFound)
}

/// The first type of the image with this namespace and this name.
#[tactic(auto, unfolding(node_model::specs::Searches::find_type_walk))]
pub(crate) fn find_type(
    graph: &QueryGraph,
    namespace: &[u8],
    type_name: &[u8],
) -> Result<Reply, Stop>
    ensures { Meets result (said (slots_asked graph.now)
        (find_type_walk (nodes_asked graph.now) namespace.now type_name.now)) }
{
    let tokens = owned_part(graph.slots, Token::ROOT, table::TYPE_DEF)?;
    first_type(graph, tokens.as_slice(), namespace, type_name)
}

/// Whether a row has this printed signature, if one is asked for.
#[tactic(auto, using(node_model::proofs::SayLemmas::said_then))]
fn sig_fits(alloc: Global, graph: &QueryGraph, token: Token, sig: &OptText) -> Result<bool, Stop>
    ensures { Meets result (said (slots_asked graph.now) (sig_test (nodes_asked graph.now) sig.now token)) }
{
    match sig {
        OptText::None => Ok(true),
        OptText::Is(text) => {
            let printed = name(alloc, graph, token)?;
            Ok(printed.as_slice() == text.as_slice())
        }
    }
}

/// Whether a member has this name, and this printed signature if one is asked for.
fn member_fits(
    alloc: Global,
    graph: &QueryGraph,
    token: Token,
    member_name: &[u8],
    sig: &OptText,
) -> Result<bool, Stop>
    ensures { Meets result (said (slots_asked graph.now)
        (member_test (nodes_asked graph.now) member_name.now sig.now token)) }
{
    let row = row_part(graph.slots, token)?;
    if text_named(row, b"Name") == member_name {
        return sig_fits(alloc, graph, token, sig);
    }
    Ok(false)
}

/// Whether a token names a member that fits.
fn is_found(
    alloc: Global,
    graph: &QueryGraph,
    table: u8,
    token: Token,
    member_name: &[u8],
    sig: &OptText,
) -> Result<bool, Stop>
    ensures { Meets result (member_said (slots_asked graph.now) (nodes_asked graph.now) table
        (member_test (nodes_asked graph.now) member_name.now sig.now) token) }
{
    if graph.is_member(table, token) {
        return member_fits(alloc, graph, token, member_name, sig);
    }
    Ok(false)
}

/// The first of these members that fits.
fn first_member(
    alloc: Global,
    graph: &QueryGraph,
    table: u8,
    tokens: &[Token],
    member_name: &[u8],
    sig: &OptText,
) -> Result<Reply, Stop>
    ensures { Meets result (said (slots_asked graph.now)
        (first_walk (member_test (nodes_asked graph.now) member_name.now sig.now)
        (live_members (nodes_asked graph.now) table tokens.now))) }
{
    for token in tokens {
        match is_found(alloc, graph, table, *token, member_name, sig) {
            Ok(fits) => {
                if fits {
                    return Ok(Reply::Found(*token));
                }
            }
            Err(stop) => return Err(stop),
        }
    }
    Ok(Reply::NotFound)
}

/// The first member of a row with this name, and with this printed signature if one is asked for.
#[tactic(auto, unfolding(node_model::specs::Searches::find_member_walk))]
pub(crate) fn find_member(
    alloc: Global,
    graph: &QueryGraph,
    of: Token,
    table: u8,
    member_name: &[u8],
    sig: &OptText,
) -> Result<Reply, Stop>
    ensures { Meets result (said (slots_asked graph.now)
        (find_member_walk (nodes_asked graph.now) of table member_name.now sig.now)) }
{
    let tokens = owned_part(graph.slots, of, table)?;
    first_member(alloc, graph, table, tokens.as_slice(), member_name, sig)
}
