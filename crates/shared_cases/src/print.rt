use cil_base::{Bytes, List, NoMemory};
use dump_text::{entry_text, outcome_text, reply_text};
use node_model::Entry;
use shared_module::{Answer, Edited};
use std::alloc::Global;

/// A text with the number of a point before it.
fn at(alloc: Global, point: u64, text: &Bytes) -> Result<Bytes, NoMemory> {
    let head = format!(in alloc; "@{point} ")?;
    let mut line = List::from_slice(alloc, head.as_bytes())?;
    line.extend(text.as_slice())?;
    Ok(line)
}

/// What was answered to a query, and at which point.
fn said(alloc: Global, answer: &Answer) -> Result<Bytes, NoMemory> {
    at(alloc, answer.at, &reply_text(alloc, &answer.reply)?)
}

/// What a copy of an answer to a query says, and of which point.
pub fn answer_text(alloc: Global, answer: &Answer) -> Result<Bytes, NoMemory> {
    let copy = answer.copy(alloc)?;
    said(alloc, &copy)
}

/// What was answered to an edit, and at which point.
pub fn edited_text(alloc: Global, edited: &Edited) -> Result<Bytes, NoMemory> {
    at(alloc, edited.at, &outcome_text(alloc, &edited.outcome)?)
}

/// Whether an entry is an edit.
fn is_edit(entry: &Entry) -> bool {
    matches!(entry, Entry::Edit { .. })
}

/// The entries of a history, or its edits alone, each behind a `;`.
pub fn history_text(
    alloc: Global,
    history: &[Entry],
    edits_alone: bool,
) -> Result<Bytes, NoMemory> {
    let mut text = List::from_slice(alloc, b"history")?;
    for entry in history {
        if is_edit(entry) || !edits_alone {
            text.extend(b"; ")?;
            text.extend(entry_text(alloc, entry)?.as_slice())?;
        }
    }
    Ok(text)
}
