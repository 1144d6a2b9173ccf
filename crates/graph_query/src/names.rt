//! The names of rows: of types, of assemblies, and of rows with a signature.

ghost use Rattle.std.specs.Prelude.{◌≡◌};
ghost use Rattle.node_model.specs.Parts.{Meets};
ghost use Rattle.node_model.specs.RowNames.{assembly_walk, has_name, is_assembly_table, name_walk};
ghost use Rattle.node_model.specs.Walk.{said};
ghost use Rattle.graph_query.specs.Answered.{nodes_asked, slots_asked};

use crate::assembly_names::full_assembly_name;
use crate::graph::QueryGraph;
use crate::sig_names::sig_name;
use crate::type_names::{is_type_table, type_name};
use cil_base::{Bytes, Token};
use md_schema::table;
use node_model::{Stop, has_sig, row_part};
use std::alloc::Global;

/// How many names stand in one another at most, that of the row included.
const DEEPEST_NAME: u32 = 64;

/// Whether the rows of a table are assemblies or references to them.
fn is_assembly_table(table: u8) -> bool
    ensures { result ≡ is_assembly_table table }
{
    table == table::ASSEMBLY || table == table::ASSEMBLY_REF
}

/// Whether the rows of a table have names.
#[tactic(auto, unfolding(node_model::specs::RowNames::has_name))]
pub(crate) fn has_name(table: u8) -> bool
    ensures { result ≡ has_name table }
{
    is_type_table(table) || is_assembly_table(table) || has_sig(table)
}

/// The name of an assembly, or of a reference to one.
fn assembly_name(alloc: Global, graph: &QueryGraph, token: Token) -> Result<Bytes, Stop>
    ensures { Meets result (said (slots_asked graph.now) (assembly_walk token)) }
{
    let row = row_part(graph.slots, token)?;
    Ok(full_assembly_name(alloc, row)?)
}

/// The name of a row whose table has names.
#[tactic(auto, unfolding(node_model::specs::RowNames::name_walk))]
pub(crate) fn name(alloc: Global, graph: &QueryGraph, token: Token) -> Result<Bytes, Stop>
    ensures { Meets result (said (slots_asked graph.now) (name_walk (nodes_asked graph.now) token)) }
{
    if is_type_table(token.table) {
        return type_name(alloc, graph, DEEPEST_NAME, token);
    }
    if is_assembly_table(token.table) {
        return assembly_name(alloc, graph, token);
    }
    sig_name(alloc, graph, DEEPEST_NAME - 1, token)
}
