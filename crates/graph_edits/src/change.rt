//! Changes as values: what an edit makes of a key that it looked at.

ghost use Rattle.std.specs.Prelude.{◌≡◌, IfOk};
ghost use Rattle.node_model.specs.Changes.{body_put, cell_put, code_refusal, entry_put, puts, token_made};
ghost use Rattle.node_model.specs.declared.key.Key.TheVariants as keys;
ghost use Rattle.node_model.specs.declared.value.BodyValue.TheVariants as bodies;
ghost use Rattle.node_model.specs.declared.value.Value.TheVariants as values;

use crate::row_cells::with_cell;
use cil_base::{List, NoMemory, Token};
use il_code::Body;
use il_edit::{IlRefusal, body_refused};
use node_model::{BodyValue, Cell, Change, EditRefusal, Key, RowChange, RowValue, Slot, Value};
use pe_image::Facts;
use std::alloc::Global;

/// A change, or the refusal in its place.
pub(crate) type Changing = Result<Change, EditRefusal>;

/// The change of one key, where no row changes.
pub(crate) fn puts(alloc: Global, key: Key, value: Value) -> Result<Change, NoMemory>
    ensures { IfOk result (λ change. change ≡ puts key value) }
{
    let mut contents = List::new(alloc);
    contents.push((key, Slot::Value(value)))?;
    Ok(Change {
        contents,
        rows: RowChange::Stays,
    })
}

/// The change of a row's cell in a column.
pub(crate) fn cell_put(
    alloc: Global,
    token: Token,
    column: u8,
    cell: &Cell,
    row: &RowValue,
) -> Result<Change, NoMemory>
    ensures { IfOk result (λ change. change ≡ cell_put token column cell.now row.now) }
{
    let cells = with_cell(alloc, token.table, column, cell, &row.cells)?;
    let row = RowValue {
        token: row.token,
        cells,
    };
    puts(alloc, Key::Row(token), Value::Row(row))
}

/// The change of the entry point.
pub(crate) fn entry_put(alloc: Global, token: Token, facts: &Facts) -> Result<Change, NoMemory>
    ensures { IfOk result (λ change. change ≡ entry_put token facts.now) }
{
    let mut facts = facts.copy()?;
    facts.entry = token;
    puts(alloc, Key::Facts, Value::Facts(facts))
}

/// The refusal of a body's edit, as that of an edit of the graph.
pub(crate) fn code_refusal(refusal: IlRefusal) -> EditRefusal
    ensures { result ≡ code_refusal refusal }
{
    match refusal {
        IlRefusal::PlaceBeyond(at, count) => {
            EditRefusal::PlaceBeyond(u64::from(at), u64::from(count))
        }
        IlRefusal::BadCode(number) => EditRefusal::BadCode(u64::from(number)),
        IlRefusal::BadHandler(number) => EditRefusal::BadHandler(u64::from(number)),
    }
}

/// The change to this IL body.
pub(crate) fn il_put(alloc: Global, token: Token, body: Body) -> Result<Change, NoMemory>
    ensures { IfOk result (λ change. change ≡ puts (keys.Body token) (values.Body (bodies.Il body))) }
{
    puts(alloc, Key::Body(token), Value::Body(BodyValue::Il(body)))
}

/// The change to an equal IL body, or the refusal for its first instruction, then its first handler, that is not sound.
fn sound_put(alloc: Global, token: Token, body: &Body) -> Result<Changing, NoMemory>
    ensures { IfOk result (λ changing. changing ≡ body_put token (bodies.Il body.now)) }
{
    if let Some(refusal) = body_refused(body) {
        return Ok(Err(code_refusal(refusal)));
    }
    let body = body.copy()?;
    Ok(Ok(il_put(alloc, token, body)?))
}

/// The change to an equal body, or the refusal of one that is not sound.
pub(crate) fn body_put(alloc: Global, token: Token, body: &BodyValue) -> Result<Changing, NoMemory>
    ensures { IfOk result (λ changing. changing ≡ body_put token body.now) }
{
    match body {
        BodyValue::NoBody => {
            let body = Value::Body(BodyValue::NoBody);
            Ok(Ok(puts(alloc, Key::Body(token), body)?))
        }
        BodyValue::Native(rva) => {
            let body = Value::Body(BodyValue::Native(*rva));
            Ok(Ok(puts(alloc, Key::Body(token), body)?))
        }
        BodyValue::Il(body) => sound_put(alloc, token, body),
    }
}

/// The token of a row that is made.
pub(crate) fn token_made(rows: &RowChange) -> Option<Token>
    ensures { result ≡ token_made rows.now }
{
    match rows {
        RowChange::Stays => None,
        RowChange::Made(row, _) => Some(row.token),
        RowChange::Gone(_) => None,
    }
}
