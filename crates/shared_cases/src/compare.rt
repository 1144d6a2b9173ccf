//! The graph after many callers, and after their edits one after the other.
use crate::command::{type_row, types};
use cil_base::{Bytes, NoMemory};
use dump_text::reply_text;
use lazy_core::{Core, Peek, Tried, fill_next};
use node_model::{By, Edit, Entry, Query};
use std::alloc::Global;

/// More keys than a query needs here.
const MOST_NEEDS: u32 = 8;

/// How many types are compared; more than there are.
const MOST_TYPES: u32 = 100;

/// Who fills keys when no caller is left.
const NOBODY: By = By {
    caller: 0,
    command: 0,
    step: 0,
};

/// How many edits of a caller a history has.
pub fn edits_of(history: &[Entry], caller: u32) -> usize {
    history
        .iter()
        .filter(|entry| match entry {
            Entry::Edit { by, .. } => by.caller == caller,
            Entry::Fill { .. } => false,
        })
        .count()
}

/// Fills what a query needs.
fn fill_all(alloc: Global, core: &mut Core, query: &Query) -> Result<(), NoMemory> {
    for _ in 0..MOST_NEEDS {
        if fill_next(alloc, core, NOBODY, query)?.is_none() {
            return Ok(());
        }
    }
    Ok(())
}

/// Whether an edit is done.
fn is_done(said: &Tried) -> bool {
    matches!(said, Tried::Done(_))
}

/// Makes edits, one after the other; whether each is done.
fn all_made(alloc: Global, core: &mut Core, by: By, edits: &[Edit]) -> Result<bool, NoMemory> {
    let mut done = true;
    for edit in edits {
        let said = core.try_edit(alloc, by, edit)?;
        done = is_done(&said) && done;
    }
    Ok(done)
}

/// Makes the edits of a history, one after the other; whether each is done.
fn replay(alloc: Global, core: &mut Core, history: &[Entry]) -> Result<bool, NoMemory> {
    let mut done = true;
    for entry in history {
        if let Entry::Edit { by, edits } = entry {
            done = all_made(alloc, core, *by, edits.as_slice())? && done;
        }
    }
    Ok(done)
}

/// The text of a reply; none where a key is needed.
fn text(alloc: Global, peek: &Peek) -> Result<Option<Bytes>, NoMemory> {
    match peek {
        Peek::Ready(reply) => Ok(Some(reply_text(alloc, reply)?)),
        Peek::Need(_) => Ok(None),
    }
}

/// What a core replies.
fn said(alloc: Global, core: &mut Core, query: &Query) -> Result<Option<Bytes>, NoMemory> {
    fill_all(alloc, core, query)?;
    let peek = core.peek(alloc, query)?;
    text(alloc, &peek)
}

/// Whether two cores reply the same.
fn same_reply(
    alloc: Global,
    one: &mut Core,
    other: &mut Core,
    query: &Query,
) -> Result<bool, NoMemory> {
    let Some(first) = said(alloc, one, query)? else {
        return Ok(false);
    };
    let Some(second) = said(alloc, other, query)? else {
        return Ok(false);
    };
    Ok(first == second)
}

/// Whether two cores have the same types.
fn same_types(alloc: Global, one: &mut Core, other: &mut Core) -> Result<bool, NoMemory> {
    let mut same = same_reply(alloc, one, other, &types())?;
    for place in 0..MOST_TYPES {
        same = same_reply(alloc, one, other, &type_row(place))? && same;
    }
    Ok(same)
}

/// Whether a core has the types that another of its image has, once the edits of the first one's history are made
/// there, one after the other.
pub fn same_as_replayed(alloc: Global, core: &mut Core) -> Result<bool, NoMemory> {
    let mut again = Core::open(alloc, core.image().clone()?)?;
    // The keys that the edits look at.
    fill_all(alloc, &mut again, &type_row(0))?;
    fill_all(alloc, &mut again, &types())?;
    let done = replay(alloc, &mut again, core.history())?;
    let same = same_types(alloc, core, &mut again)?;
    Ok(done && same)
}
