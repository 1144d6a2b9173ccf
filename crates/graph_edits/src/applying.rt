ghost use Rattle.std.specs.Prelude.{◌≡◌, ◌<◌, ◌-◌, ◌^◌, ◌+◌, ℕ, IfOk, List, OnErr, OnOk, length, true};
ghost use Rattle.std.specs.Prelude.{slice_index, slice_set};
ghost use Rattle.node_model.specs.Changes.{nodes_after, token_made};
ghost use Rattle.node_model.specs.Graph.{graph_of};
ghost use Rattle.node_model.specs.Places.{image_shape};
ghost use Rattle.graph_edits.specs.Applying.{applied, change_made};
ghost use Rattle.graph_edits.specs.Graphs.{Follows, IsKept, IsMade, nodes_in, slots_in};
ghost use Rattle.graph_edits.specs.Stands.{Stands, answer_over, edits_then};
ghost use Rattle.graph_edits.specs.inner.Making.{CanBeMade, RowsBegin, SoundRows, all_filled, change_of_parts};

use crate::applied::Applied;
use crate::change::token_made;
use crate::commit::{begin, write_all};
use crate::edits::change_of;
use crate::graph::EditGraph;
use crate::looked::keys_looked;
use crate::refusal::early_refusal;
use cil_base::{List, NoMemory, Token};
use node_model::{Change, Edit, EditRefusal, Halt, Key, RowChange, Slot, Stop, row_keys};
use std::alloc::Global;

/// Counts a row more of a table.
fn count_row(added: &mut [u32; 64], table: u8)
    requires small { table < 64 }
    requires room { slice_index added.old table < 2 ^ 24 - 1 }
    ensures counted { added.new ≡ slice_set added.old table (slice_index added.old table + 1) }
    ensures within { table < length added.old }
{
    added[table as usize] += 1;
}

/// Makes the change of the rows, and gives the keys of a new row what they begin with. `NoMemory` changes nothing.
fn make_rows(alloc: Global, graph: &mut EditGraph, rows: &RowChange) -> Result<(), NoMemory>
    requires shape { graph.old.slots.shape ≡ image_shape graph.old.rows }
    requires sound { SoundRows (nodes_in graph.old) rows.now }
    ensures nodes { OnOk result (nodes_in graph.new ≡ nodes_after rows.now (nodes_in graph.old)) }
    ensures slots { OnOk result (RowsBegin graph.old.slots graph.new.slots rows.now) }
    ensures rows { graph.new.rows ≡ graph.old.rows }
    ensures shape { graph.new.slots.shape ≡ graph.old.slots.shape }
    ensures err { OnErr result (IsKept graph.old graph.new) }
{
    match rows {
        RowChange::Stays => Ok(()),
        RowChange::Made(row, sig) => {
            let keys = row_keys(alloc, row.token)?;
            begin(alloc, &mut graph.slots, row, sig, keys.as_slice())?;
            count_row(&mut graph.added, row.token.table);
            Ok(())
        }
        RowChange::Gone(token) => graph.removed.push(*token),
    }
}

/// Makes the change of these keys and of the rows. `NoMemory` changes nothing.
fn make(
    alloc: Global,
    graph: &mut EditGraph,
    contents: List<(Key, Slot)>,
    rows: &RowChange,
) -> Result<(), NoMemory>
    requires shape { graph.old.slots.shape ≡ image_shape graph.old.rows }
    requires filled { all_filled (slots_in graph.old) contents ≡ true }
    requires sound { SoundRows (nodes_in graph.old) rows.now }
    ensures ok { OnOk result (IsMade graph.old (change_of_parts contents rows.now) graph.new) }
    ensures err { OnErr result (IsKept graph.old graph.new) }
{
    make_rows(alloc, graph, rows)?;
    write_all(&mut graph.slots, contents);
    Ok(())
}

/// Makes a change, and answers the token of the row that it made, if it made one. `NoMemory` changes nothing.
fn make_change(
    alloc: Global,
    graph: &mut EditGraph,
    change: Change,
) -> Result<Option<Token>, NoMemory>
    requires shape { graph.old.slots.shape ≡ image_shape graph.old.rows }
    requires sound { CanBeMade graph.old change }
    ensures token { IfOk result (λ token. token ≡ token_made change.rows) }
    ensures ok { OnOk result (IsMade graph.old change graph.new) }
    ensures err { OnErr result (IsKept graph.old graph.new) }
{
    let Change { contents, rows } = change;
    let made = make(alloc, graph, contents, &rows);
    let token = token_made(&rows);
    let_go(rows);
    made?;
    Ok(token)
}

/// Drops what became of the rows.
fn let_go(_rows: RowChange) {}

/// Applies an edit, by the slots that are filled. After every other answer than `Done`, and after `NoMemory`, nothing
/// that is seen of the graph has changed.
#[tactic(auto, unfolding(crate::specs::Applying::applied, crate::specs::Applying::change_made))]
fn apply_by_slots(alloc: Global, graph: &mut EditGraph, edit: &Edit) -> Result<Applied, NoMemory>
    requires shape { graph.old.slots.shape ≡ image_shape graph.old.rows }
    ensures answer { IfOk result (λ answer. answer ≡ applied (nodes_in graph.old) (slots_in graph.old) edit.now) }
    ensures graph { OnOk result (Follows graph.old (change_made (nodes_in graph.old) (slots_in graph.old) edit.now)
        graph.new) }
    ensures kept { OnErr result (IsKept graph.old graph.new) }
{
    if let Some(refusal) = early_refusal(&graph.rows_there(), edit) {
        return Ok(Applied::Refused(refusal));
    }
    match change_of(alloc, graph, edit) {
        Ok(Ok(change)) => {
            let token = make_change(alloc, graph, change)?;
            Ok(Applied::Done(token))
        }
        Ok(Err(refusal)) => Ok(Applied::Refused(refusal)),
        Err(Stop::Halted(Halt::Faulty(fault))) => {
            Ok(Applied::Refused(EditRefusal::Reached(fault)))
        }
        Err(Stop::Halted(Halt::Lacks(_))) => {
            let keys = keys_looked(alloc, graph, edit)?;
            Ok(Applied::Need(keys))
        }
        Err(Stop::NoMemory) => Err(NoMemory),
    }
}

/// Applies an edit. `Done` exactly where no refusal holds: then the graph has changed by it, and every other key has
/// the slot that it had. `Need` exactly where a key that it looks at has no slot. After every other answer than `Done`,
/// and after `NoMemory`, nothing that is seen of the graph has changed. Whatever bytes and edits the graph stands for,
/// the answer is that of the edit over the whole of it, up to the first key without a slot; and after `Done` the graph
/// stands for the edits with this one behind them. Asks for a store of the shape that the image's rows have.
pub fn apply(alloc: Global, graph: &mut EditGraph, edit: &Edit) -> Result<Applied, NoMemory>
    requires shape { graph.old.slots.shape ≡ image_shape graph.old.rows }
    ensures meets { IfOk result (λ answer. (b : List ℕ) (j : List Edit) → Stands b j graph.old
        → answer ≡ answer_over (graph_of b j) graph.old edit.now) }
    ensures stands { IfOk result (λ answer. (b : List ℕ) (j : List Edit) → Stands b j graph.old
        → Stands b (edits_then j edit.now answer) graph.new) }
    ensures answer { IfOk result (λ answer. answer ≡ applied (nodes_in graph.old) (slots_in graph.old) edit.now) }
    ensures graph { OnOk result (Follows graph.old (change_made (nodes_in graph.old) (slots_in graph.old) edit.now)
        graph.new) }
    ensures kept { OnErr result (IsKept graph.old graph.new) }
{
    apply_by_slots(alloc, graph, edit)
}
