//! The walk over a graph, table by table: lists first, then what each kept row holds.

ghost use Rattle.std.specs.Prelude.{◌≡◌, [], true, fold, is_some, IfOk, OnOk};
ghost use Rattle.std.specs.List.{flat_map};
ghost use Rattle.md_schema.specs.Entry.{columns_of};
ghost use Rattle.write_plan.specs.GraphWalk.{graph_walk, member_met, own_keys, table_keys, table_walked};
ghost use Rattle.write_plan.specs.Seen.{list_members, seen_in};
ghost use Rattle.write_plan.specs.inner.Taken.{IsMet, IsTaken, Takes, met_rows, new_keys, value_kept, walked_so};

use crate::held::list_members;
use crate::kept::Kept;
use crate::met::MetRows;
use crate::order::{list_keys, nested_keys, walk_order};
use crate::refusal::WriteRefusal;
use crate::taking::{take_key, take_keys, take_row};
use cil_base::{List, NoMemory, Token};
use node_model::{Graph, Key};
use std::alloc::Global;

/// Takes the keys of a member of a list of rows of a table, where it is new. One that was removed is passed over.
fn take_member<G: Graph>(
    alloc: Global,
    graph: &G,
    kept: &mut Kept,
    met: &mut MetRows,
    table: u8,
    token: Token,
) -> Result<(), WriteRefusal>
    requires kind { is_some (columns_of table) ≡ true }
    requires kept { IsTaken (seen_in (G.bytes graph.now) (G.edits graph.now)) kept.old }
    requires met { IsMet met.old }
    ensures is_met { OnOk result (IsMet met.new) }
    ensures met { OnOk result (met_rows met.new
        ≡ member_met (seen_in (G.bytes graph.now) (G.edits graph.now)) table (met_rows met.old) token) }
    ensures keys { Takes (seen_in (G.bytes graph.now) (G.edits graph.now)) kept.old
        (new_keys (seen_in (G.bytes graph.now) (G.edits graph.now)) table (met_rows met.old) token) kept.new result }
{
    if token.table != table {
        return Ok(());
    }
    take_row(alloc, graph, kept, met, token)
}

/// Takes the keys of the members of lists of rows of a table, row by row.
fn take_members<G: Graph>(
    alloc: Global,
    graph: &G,
    kept: &mut Kept,
    met: &mut MetRows,
    table: u8,
    members: &[Token],
) -> Result<(), WriteRefusal>
    requires kind { is_some (columns_of table) ≡ true }
    requires kept { IsTaken (seen_in (G.bytes graph.now) (G.edits graph.now)) kept.old }
    requires met { IsMet met.old }
    requires begun { met.old.rows ≡ [] }
    ensures is_met { OnOk result (IsMet met.new) }
    ensures met { OnOk result (met_rows met.new
        ≡ fold (member_met (seen_in (G.bytes graph.now) (G.edits graph.now)) table) (met_rows met.old) members.now) }
    ensures keys { Takes (seen_in (G.bytes graph.now) (G.edits graph.now)) kept.old
        (flat_map own_keys (fold (member_met (seen_in (G.bytes graph.now) (G.edits graph.now)) table) (met_rows met.old)
        members.now).rows) kept.new result }
{
    for token in members {
        take_member(alloc, graph, kept, met, table, *token)?;
    }
    Ok(())
}

/// The members of these lists.
fn members_of(alloc: Global, kept: &Kept, lists: &[Key]) -> Result<List<Token>, NoMemory>
    ensures { IfOk result (λ members. members ≡ flat_map (λ k. list_members (value_kept kept.now k)) lists.now) }
{
    let mut members = List::new(alloc);
    for list in lists {
        members.extend(list_members(kept.value(list)))?;
    }
    Ok(members)
}

/// Takes what a table brings.
fn take_table<G: Graph>(
    alloc: Global,
    graph: &G,
    kept: &mut Kept,
    met: &mut MetRows,
    table: u8,
) -> Result<(), WriteRefusal>
    requires kind { is_some (columns_of table) ≡ true }
    requires kept { IsTaken (seen_in (G.bytes graph.now) (G.edits graph.now)) kept.old }
    requires met { IsMet met.old }
    ensures is_met { OnOk result (IsMet met.new) }
    ensures walked { OnOk result (walked_so kept.new met.new
        ≡ table_walked (seen_in (G.bytes graph.now) (G.edits graph.now)) (walked_so kept.old met.old) table) }
    ensures keys { Takes (seen_in (G.bytes graph.now) (G.edits graph.now)) kept.old
        (table_keys (seen_in (G.bytes graph.now) (G.edits graph.now)) (walked_so kept.old met.old) table) kept.new
        result }
{
    let found = list_keys(alloc, &met.all, table)?;
    let nested = nested_keys(alloc, &met.all, table)?;
    let lists = found.as_slice();
    take_keys(alloc, graph, kept, lists)?;
    let members = members_of(alloc, kept, lists)?;
    met.begin(alloc);
    take_members(alloc, graph, kept, met, table, members.as_slice())?;
    take_keys(alloc, graph, kept, nested.as_slice())
}

/// Walks over a graph, with nothing taken and nothing met before.
pub(crate) fn walk<G: Graph>(
    alloc: Global,
    graph: &G,
    kept: &mut Kept,
    met: &mut MetRows,
) -> Result<(), WriteRefusal>
    requires kept { IsTaken (seen_in (G.bytes graph.now) (G.edits graph.now)) kept.old }
    requires met { IsMet met.old }
    requires begun { walked_so kept.old met.old ≡ record { keys = []; all = []; again = [] } }
    ensures is_met { OnOk result (IsMet met.new) }
    ensures walked { OnOk result (walked_so kept.new met.new
        ≡ graph_walk (seen_in (G.bytes graph.now) (G.edits graph.now))) }
    ensures keys { Takes (seen_in (G.bytes graph.now) (G.edits graph.now)) kept.old
        (graph_walk (seen_in (G.bytes graph.now) (G.edits graph.now))).keys kept.new result }
{
    take_key(alloc, graph, kept, &Key::Facts)?;
    let tables = walk_order();
    for table in tables {
        take_table(alloc, graph, kept, met, *table)?;
    }
    Ok(())
}
