//! Keys that a walk takes of a graph, and the rows that it meets.

ghost use Rattle.std.specs.Prelude.{◌≡◌, ◌∷◌, [], false, true, is_some, OnOk};
ghost use Rattle.std.specs.List.{filter, list_any};
ghost use Rattle.md_schema.specs.Entry.{columns_of};
ghost use Rattle.node_model.specs.KeyKinds.{has_kind};
ghost use Rattle.node_model.specs.Keys.{same_token};
ghost use Rattle.node_model.specs.declared.key.Key.TheVariants.{Row};
ghost use Rattle.write_plan.specs.GraphWalk.{met_one, own_keys, row_met};
ghost use Rattle.write_plan.specs.Seen.{is_seen, seen_in};
ghost use Rattle.write_plan.specs.inner.Taken.{IsMet, IsTaken, Takes, met_rows, row_new_keys};

use crate::kept::Kept;
use crate::met::MetRows;
use crate::refusal::WriteRefusal;
use cil_base::{NoMemory, Token};
use node_model::{Graph, Key, Look, has_kind};
use std::alloc::Global;

/// Whether a row is there.
fn is_seen(seen: &Look) -> bool
    ensures { result ≡ is_seen seen.now }
{
    matches!(seen, Look::Slot(_))
}

/// Takes a key.
pub(crate) fn take_key<G: Graph>(
    alloc: Global,
    graph: &G,
    kept: &mut Kept,
    key: &Key,
) -> Result<(), WriteRefusal>
    requires kind { has_kind key.now ≡ true }
    requires kept { IsTaken (seen_in (G.bytes graph.now) (G.edits graph.now)) kept.old }
    ensures { Takes (seen_in (G.bytes graph.now) (G.edits graph.now)) kept.old (key.now ∷ []) kept.new result }
{
    match graph.look(alloc, key) {
        Ok(seen) => kept.keep(key, seen),
        Err(NoMemory) => Err(WriteRefusal::NoMemory),
    }
}

/// Takes a key, where the table of its row has keys of its kind.
fn take_known<G: Graph>(
    alloc: Global,
    graph: &G,
    kept: &mut Kept,
    key: &Key,
) -> Result<(), WriteRefusal>
    requires { IsTaken (seen_in (G.bytes graph.now) (G.edits graph.now)) kept.old }
    ensures { Takes (seen_in (G.bytes graph.now) (G.edits graph.now)) kept.old (filter has_kind (key.now ∷ [])) kept.new
        result }
{
    if has_kind(key) {
        return take_key(alloc, graph, kept, key);
    }
    Ok(())
}

/// Takes those of these keys whose row's table has keys of their kind.
pub(crate) fn take_keys<G: Graph>(
    alloc: Global,
    graph: &G,
    kept: &mut Kept,
    keys: &[Key],
) -> Result<(), WriteRefusal>
    requires { IsTaken (seen_in (G.bytes graph.now) (G.edits graph.now)) kept.old }
    ensures { Takes (seen_in (G.bytes graph.now) (G.edits graph.now)) kept.old (filter has_kind keys.now) kept.new
        result }
{
    for key in keys {
        take_known(alloc, graph, kept, key)?;
    }
    Ok(())
}

/// Takes the keys of a row that is there and new, of which this is seen.
fn take_new<G: Graph>(
    alloc: Global,
    graph: &G,
    kept: &mut Kept,
    met: &mut MetRows,
    token: Token,
    seen: Look,
) -> Result<(), WriteRefusal>
    requires seen { seen ≡ seen_in (G.bytes graph.now) (G.edits graph.now) (Row token) }
    requires kept { IsTaken (seen_in (G.bytes graph.now) (G.edits graph.now)) kept.old }
    requires met { IsMet met.old }
    requires new { list_any (same_token token) met.old.all ≡ false }
    ensures met { OnOk result (IsMet met.new × (met_rows met.new ≡ met_one (met_rows met.old) token)) }
    ensures keys { Takes (seen_in (G.bytes graph.now) (G.edits graph.now)) kept.old (own_keys token) kept.new result }
{
    kept.keep(&Key::Row(token), seen)?;
    met.meet_new(token)?;
    let keys = [
        Key::Sig(token),
        Key::Body(token),
        Key::Data(token),
        Key::Resource(token),
    ];
    take_keys(alloc, graph, kept, &keys)
}

/// Takes the keys of a row of which this is seen, where it is there and new.
fn take_seen<G: Graph>(
    alloc: Global,
    graph: &G,
    kept: &mut Kept,
    met: &mut MetRows,
    token: Token,
    seen: Look,
) -> Result<(), WriteRefusal>
    requires seen { seen ≡ seen_in (G.bytes graph.now) (G.edits graph.now) (Row token) }
    requires kept { IsTaken (seen_in (G.bytes graph.now) (G.edits graph.now)) kept.old }
    requires met { IsMet met.old }
    ensures is_met { OnOk result (IsMet met.new) }
    ensures met { OnOk result (met_rows met.new
        ≡ row_met (seen_in (G.bytes graph.now) (G.edits graph.now)) (met_rows met.old) token) }
    ensures keys { Takes (seen_in (G.bytes graph.now) (G.edits graph.now)) kept.old
        (row_new_keys (seen_in (G.bytes graph.now) (G.edits graph.now)) (met_rows met.old) token) kept.new result }
{
    if !is_seen(&seen) {
        return Ok(());
    }
    if met.has(token) {
        return met.meet_again(token);
    }
    take_new(alloc, graph, kept, met, token, seen)
}

/// Takes the keys of a row, where it is there and new.
pub(crate) fn take_row<G: Graph>(
    alloc: Global,
    graph: &G,
    kept: &mut Kept,
    met: &mut MetRows,
    token: Token,
) -> Result<(), WriteRefusal>
    requires kind { is_some (columns_of token.table) ≡ true }
    requires kept { IsTaken (seen_in (G.bytes graph.now) (G.edits graph.now)) kept.old }
    requires met { IsMet met.old }
    ensures is_met { OnOk result (IsMet met.new) }
    ensures met { OnOk result (met_rows met.new
        ≡ row_met (seen_in (G.bytes graph.now) (G.edits graph.now)) (met_rows met.old) token) }
    ensures keys { Takes (seen_in (G.bytes graph.now) (G.edits graph.now)) kept.old
        (row_new_keys (seen_in (G.bytes graph.now) (G.edits graph.now)) (met_rows met.old) token) kept.new result }
{
    match graph.look(alloc, &Key::Row(token)) {
        Ok(seen) => take_seen(alloc, graph, kept, met, token, seen),
        Err(NoMemory) => Err(WriteRefusal::NoMemory),
    }
}
