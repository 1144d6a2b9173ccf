ghost use Rattle.std.specs.Prelude.{◌≡◌, IfOk};
ghost use Rattle.node_model.specs.Places.{image_shape};

use crate::{Applied, EditGraph, apply, needs};
use cil_base::{List, NoMemory, Token};
use md_schema::table::MODULE_REF;
use node_model::{
    Cell, Change, Edit, Key, Look, OptSig, RowChange, RowValue, Slot, Value, image_shape,
};
use slot_store::Slots;
use std::alloc::Global;
use std::test::Fail;

/// A row of a table whose rows have one text, and which the image itself lists.
fn row(rid: u8) -> Token {
    Token {
        table: MODULE_REF,
        rid: u32::from(rid),
    }
}

/// What a list with one row holds.
fn one_token(alloc: Global) -> Result<Slot, NoMemory> {
    let mut tokens = List::new(alloc);
    tokens.push(row(1))?;
    Ok(Slot::Value(Value::Tokens(tokens)))
}

/// A graph of an image with one row, of which the list is filled.
fn one_row(alloc: Global) -> Result<EditGraph, NoMemory>
    ensures { IfOk result (λ graph. graph.slots.shape ≡ image_shape graph.rows) }
{
    let mut rows = [0; 64];
    rows[MODULE_REF as usize] = 1;
    let mut slots = Slots::new(alloc, &image_shape(&rows))?;
    slots.put_once(Key::Owned(Token::ROOT, MODULE_REF), one_token(alloc)?)?;
    Ok(EditGraph {
        slots,
        rows,
        added: [0; 64],
        removed: List::new(alloc),
    })
}

/// The cells of a row with this name.
fn named(alloc: Global, name: &[u8]) -> Result<List<Cell>, NoMemory> {
    let mut cells = List::new(alloc);
    cells.push(Cell::Text(List::from_slice(alloc, name)?))?;
    Ok(cells)
}

/// A new row with this name.
fn new_row(alloc: Global, name: &[u8]) -> Result<Edit, NoMemory> {
    Ok(Edit::Add {
        table: MODULE_REF,
        cells: named(alloc, name)?,
        sig: OptSig::None,
    })
}

/// How many rows a list has.
fn listed(slot: Option<&Slot>) -> usize {
    match slot {
        Some(Slot::Value(Value::Tokens(tokens))) => tokens.len(),
        _ => 0,
    }
}

/// How many rows the list has, and how many keys of the row that comes next are filled.
fn seen(graph: &EditGraph) -> (usize, usize) {
    let list = graph.slots.get(&Key::Owned(Token::ROOT, MODULE_REF));
    let filled = match graph.slots.get(&Key::Row(row(2))) {
        Some(_) => 1,
        None => 0,
    };
    (listed(list), filled)
}

/// Run with `--fail-alloc N`, where each allocation of `apply` fails in turn: then the graph is as it was, and the same
/// edit is done afterwards. The last allocation is the test's own, so that the end of those of `apply` is seen.
#[test]
fn an_edit_is_done_whole_or_not_at_all(rt: HostRuntime) -> Result<(), Fail> {
    let mut graph = one_row(rt.alloc())?;
    let edit = new_row(rt.alloc(), &[97])?;
    if apply(rt.alloc(), &mut graph, &edit).is_err() {
        assert_eq!(rt; seen(&graph), (1, 0), "memory was wanting");
        apply(rt.alloc(), &mut graph, &edit)?;
    }
    assert_eq!(rt; seen(&graph), (2, 1), "done");
    let last = one_token(rt.alloc())?;
    assert_eq!(rt; listed(Some(&last)), 1, "the last allocation");
    Ok(())
}

/// How many keys are needed.
fn needed(answer: &Applied) -> usize {
    match answer {
        Applied::Need(keys) => keys.len(),
        _ => 0,
    }
}

/// How many keys change, and the row that is made, with the number of its cells.
fn changed(change: &Change) -> (usize, u32, usize) {
    match &change.rows {
        RowChange::Made(row, _) => (change.contents.len(), row.token.rid, row.cells.len()),
        _ => (change.contents.len(), 0, 0),
    }
}

/// What is looked at as a list of rows.
fn rows_seen(look: &Look) -> usize {
    match look {
        Look::Slot(slot) => listed(Some(slot)),
        _ => 0,
    }
}

#[test]
fn a_copy_holds_what_was_copied(rt: HostRuntime) -> Result<(), Fail> {
    let edit = new_row(rt.alloc(), &[97])?;
    let answer = Applied::Need(needs(rt.alloc(), &edit)?);
    assert_eq!(rt;
        needed(&answer.copy()?),
        1,
        "the list of the image is needed"
    );
    let mut contents = List::new(rt.alloc());
    contents.push((Key::Owned(Token::ROOT, MODULE_REF), one_token(rt.alloc())?))?;
    let made = RowValue {
        token: row(2),
        cells: named(rt.alloc(), &[97])?,
    };
    let change = Change {
        contents,
        rows: RowChange::Made(made, OptSig::None),
    };
    assert_eq!(rt; changed(&change.copy(rt.alloc())?), (1, 2, 1), "a change");
    let look = Look::Slot(one_token(rt.alloc())?);
    assert_eq!(rt; rows_seen(&look.copy(rt.alloc())?), 1, "a look");
    Ok(())
}
