//! The names of types, each by that of the type that it is in (ECMA-335 II.22.32, II.22.37, II.22.38).

ghost use Rattle.std.specs.Prelude.{◌≡◌, codes, IfOk, None, Some};
ghost use Rattle.node_model.specs.Parts.{Meets};
ghost use Rattle.node_model.specs.RowNames.{is_type_table, name_of_type, nested_walk, scoped_walk, type_def_walk, type_name_level};
ghost use Rattle.node_model.specs.RowNames.{type_name_walk, type_ref_walk, unknown_name, within_walk};
ghost use Rattle.node_model.specs.RowTexts.{inner_type_name, own_type_name, qualified_name, token_named};
ghost use Rattle.node_model.specs.Walk.{said};
ghost use Rattle.graph_query.specs.Answered.{nodes_asked, slots_asked};

use crate::graph::QueryGraph;
use crate::row_texts::{text_named, token_named};
use cil_base::{Bytes, List, NoMemory, Token};
use md_schema::{Link, table};
use node_model::{RowValue, Stop, linked_part, row_part};
use std::alloc::Global;

/// Whether the rows of a table are types by a name.
pub(crate) fn is_type_table(table: u8) -> bool
    ensures { result ≡ is_type_table table }
{
    table == table::TYPE_DEF || table == table::TYPE_REF
}

/// The name of what has none: `?`.
pub(crate) fn unknown_name(alloc: Global) -> Result<Bytes, NoMemory>
    ensures { IfOk result (λ name. name ≡ unknown_name) }
{
    List::from_slice(alloc, b"?")
}

/// The namespace, if there is one, a point, and the name.
fn qualified_name(alloc: Global, namespace: &[u8], name: &[u8]) -> Result<Bytes, NoMemory>
    ensures { IfOk result (λ text. text ≡ qualified_name namespace.now name.now) }
{
    let mut text = List::from_slice(alloc, namespace)?;
    match namespace {
        [] => text.extend(name)?,
        _ => {
            text.extend(b".")?;
            text.extend(name)?;
        }
    }
    Ok(text)
}

/// The name of a type that is in no other.
#[tactic(auto, unfolding(node_model::specs::RowTexts::own_type_name))]
fn own_type_name(alloc: Global, row: &RowValue) -> Result<Bytes, NoMemory>
    ensures { IfOk result (λ name. name ≡ own_type_name row.now) }
{
    qualified_name(
        alloc,
        text_named(row, b"Namespace"),
        text_named(row, b"Name"),
    )
}

/// The name of a type within another, by the other's name.
#[tactic(auto, unfolding(node_model::specs::RowTexts::inner_type_name))]
fn inner_type_name(outer: Bytes, row: &RowValue) -> Result<Bytes, NoMemory>
    ensures { IfOk result (λ name. name ≡ inner_type_name outer row.now) }
{
    let mut name = outer;
    name.extend(b"/")?;
    name.extend(text_named(row, b"Name"))?;
    Ok(name)
}

/// The name of a type that has no NestedClass row.
fn outermost_name(alloc: Global, graph: &QueryGraph, token: Token) -> Result<Bytes, Stop>
    ensures { Meets result (said (slots_asked graph.now)
        (nested_walk (nodes_asked graph.now) (type_name_walk (nodes_asked graph.now) 0) token None)) }
{
    let row = row_part(graph.slots, token)?;
    Ok(own_type_name(alloc, row)?)
}

/// The name of a type of this image within another, by the other's name.
fn within_name(graph: &QueryGraph, token: Token, outer: Bytes) -> Result<Bytes, Stop>
    ensures { Meets result (said (slots_asked graph.now) (within_walk token outer)) }
{
    let row = row_part(graph.slots, token)?;
    Ok(inner_type_name(outer, row)?)
}

/// The name of a type that a cell or a signature names, with at most `depth` names in one another.
#[cycle(type_names)]
pub(crate) fn name_of_type(
    alloc: Global,
    graph: &QueryGraph,
    depth: u32,
    token: Option<Token>,
) -> Result<Bytes, Stop>
    ensures { Meets result (said (slots_asked graph.now)
        (name_of_type (nodes_asked graph.now) (type_name_walk (nodes_asked graph.now) depth) token)) }
{
    let Some(token) = token else {
        return Ok(unknown_name(alloc)?);
    };
    if graph.is_live(token) && is_type_table(token.table) {
        return type_name(alloc, graph, depth, token);
    }
    Ok(unknown_name(alloc)?)
}

/// The name of a type by its NestedClass row.
#[cycle(type_names)]
#[tactic(auto, using(node_model::proofs::SayLemmas::said_then))]
fn nested_name(
    alloc: Global,
    graph: &QueryGraph,
    depth: u32,
    token: Token,
    nesting: Token,
) -> Result<Bytes, Stop>
    ensures { Meets result (said (slots_asked graph.now)
        (nested_walk (nodes_asked graph.now) (type_name_walk (nodes_asked graph.now) depth) token (Some nesting))) }
{
    let encloser = token_named(row_part(graph.slots, nesting)?, b"EnclosingClass");
    let outer = name_of_type(alloc, graph, depth, encloser)?;
    within_name(graph, token, outer)
}

/// The name of a type of this image.
#[cycle(type_names)]
fn type_def_name(alloc: Global, graph: &QueryGraph, depth: u32, token: Token) -> Result<Bytes, Stop>
    ensures { Meets result (said (slots_asked graph.now)
        (type_def_walk (nodes_asked graph.now) (type_name_walk (nodes_asked graph.now) depth) token)) }
{
    let nestings = linked_part(graph.slots, token, Link::NestedClass)?;
    match graph.first_member(table::NESTED_CLASS, nestings.as_slice()) {
        Some(nesting) => nested_name(alloc, graph, depth, token, nesting),
        None => outermost_name(alloc, graph, token),
    }
}

/// The name of a type of another image, by its row and its scope.
#[cycle(type_names)]
#[tactic(auto, using(node_model::proofs::SayLemmas::said_then))]
fn scoped_name(
    alloc: Global,
    graph: &QueryGraph,
    depth: u32,
    row: &RowValue,
    scope: Option<Token>,
) -> Result<Bytes, Stop>
    ensures { Meets result (said (slots_asked graph.now)
        (scoped_walk (nodes_asked graph.now) (type_name_walk (nodes_asked graph.now) depth) row.now scope)) }
{
    let Some(scope) = scope else {
        return Ok(own_type_name(alloc, row)?);
    };
    if scope.table == table::TYPE_REF {
        let outer = name_of_type(alloc, graph, depth, Some(scope))?;
        return Ok(inner_type_name(outer, row)?);
    }
    Ok(own_type_name(alloc, row)?)
}

/// The name of a type of another image, by its row.
#[cycle(type_names)]
fn reference_name(
    alloc: Global,
    graph: &QueryGraph,
    depth: u32,
    row: &RowValue,
) -> Result<Bytes, Stop>
    ensures { Meets result (said (slots_asked graph.now)
        (scoped_walk (nodes_asked graph.now) (type_name_walk (nodes_asked graph.now) depth) row.now
        (token_named (codes "ResolutionScope") row.now))) }
{
    scoped_name(
        alloc,
        graph,
        depth,
        row,
        token_named(row, b"ResolutionScope"),
    )
}

/// The name of a type of another image.
#[cycle(type_names)]
fn type_ref_name(alloc: Global, graph: &QueryGraph, depth: u32, token: Token) -> Result<Bytes, Stop>
    ensures { Meets result (said (slots_asked graph.now)
        (type_ref_walk (nodes_asked graph.now) (type_name_walk (nodes_asked graph.now) depth) token)) }
{
    let row = row_part(graph.slots, token)?;
    reference_name(alloc, graph, depth, row)
}

/// The name of a type, with at most `depth` names for the types that it is in.
#[cycle(type_names)]
#[tactic(auto, unfolding(node_model::specs::RowNames::type_name_level))]
fn type_name_level(
    alloc: Global,
    graph: &QueryGraph,
    depth: u32,
    token: Token,
) -> Result<Bytes, Stop>
    ensures { Meets result (said (slots_asked graph.now)
        (type_name_level (nodes_asked graph.now) (type_name_walk (nodes_asked graph.now) depth) token)) }
{
    if token.table == table::TYPE_DEF {
        type_def_name(alloc, graph, depth, token)
    } else {
        type_ref_name(alloc, graph, depth, token)
    }
}

/// The name of a type, with at most `depth` names in one another, its own included. What is deeper is `?`.
#[cycle(type_names)]
#[tactic(auto, using(crate::proofs::NameLemmas::name_step))]
pub(crate) fn type_name(
    alloc: Global,
    graph: &QueryGraph,
    depth: u32,
    token: Token,
) -> Result<Bytes, Stop>
    ensures { Meets result (said (slots_asked graph.now) (type_name_walk (nodes_asked graph.now) depth token)) }
{
    if depth == 0 {
        return Ok(unknown_name(alloc)?);
    }
    type_name_level(alloc, graph, depth - 1, token)
}
