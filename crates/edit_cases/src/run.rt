use crate::edit::edits;
use crate::late::late;
use crate::looked::{look, needed};
use crate::query::queries;
use crate::texts::end_text;
use crate::words::{number, word};
use cil_base::{Bytes, List, NoMemory};
use dump_text::entry_text;
use lazy_core::{Core, Step, StepAnswer, fill_next, run_steps};
use node_model::{By, Edit, Entry, Query};
use std::alloc::Global;

/// The most keys that a command of a case may need.
const MOST_NEEDS: u32 = 8192;

/// The caller's command of a line.
fn by(line: &str) -> By {
    By {
        caller: 0,
        command: number(word(line, 0)),
        step: 0,
    }
}

/// A step, and the publishing of what it is told to need.
fn rounds(alloc: Global, step: Step) -> Result<List<Step>, NoMemory> {
    let mut steps = List::new(alloc);
    steps.push(step)?;
    steps.push(Step::Publish { of: 0 })?;
    Ok(steps)
}

/// What is printed of the first of the answers.
fn first_text(alloc: Global, answers: &[StepAnswer]) -> Result<Option<Bytes>, NoMemory> {
    match answers.first() {
        Some(answer) => end_text(alloc, answer),
        None => Ok(None),
    }
}

/// Takes a step, and publishes what it is told to need.
fn once(alloc: Global, core: Core, step: Step) -> Result<(Core, Option<Bytes>), NoMemory> {
    let steps = rounds(alloc, step)?;
    let (core, answers) = run_steps(alloc, core, &steps)?;
    let text = first_text(alloc, answers.as_slice())?;
    Ok((core, text))
}

/// Asks until there is a reply.
fn asked(alloc: Global, core: Core, by: By, query: &Query) -> Result<(Core, Bytes), NoMemory> {
    let mut core = core;
    for _ in 0..MOST_NEEDS {
        let query = query.copy(alloc)?;
        let (next, text) = once(alloc, core, Step::Peek { by, query })?;
        core = next;
        if let Some(text) = text {
            return Ok((core, text));
        }
    }
    Ok((core, List::from_slice(alloc, b"needs too many keys")?))
}

/// Tries an edit until it is answered.
fn tried(alloc: Global, core: Core, by: By, edit: &Edit) -> Result<(Core, Bytes), NoMemory> {
    let mut core = core;
    for _ in 0..MOST_NEEDS {
        let edit = edit.copy(alloc)?;
        let (next, text) = once(alloc, core, Step::TryEdit { by, edit })?;
        core = next;
        if let Some(text) = text {
            return Ok((core, text));
        }
    }
    Ok((core, List::from_slice(alloc, b"needs too many keys")?))
}

/// Fills what a query needs next: the token of the key that is filled, or that none is needed.
fn filled(alloc: Global, core: Core, by: By, query: &Query) -> Result<(Core, Bytes), NoMemory> {
    let mut core = core;
    let text = match fill_next(alloc, &mut core, by, query)? {
        Some(key) => List::from_slice(alloc, &key.token().hex_digits())?,
        None => List::from_slice(alloc, b"ready")?,
    };
    Ok((core, text))
}

/// What a query answers, or the fill of what it needs next; a query that is none changes nothing.
fn queried(alloc: Global, core: Core, line: &str) -> Result<(Core, Bytes), NoMemory> {
    let queries = queries(alloc, line)?;
    match queries.as_slice().first() {
        Some(query) if word(line, 1) == "fill" => filled(alloc, core, by(line), query),
        Some(query) => asked(alloc, core, by(line), query),
        None => Ok((core, List::from_slice(alloc, b"no query")?)),
    }
}

/// What an edit answers; an edit that is none changes nothing.
fn edited(alloc: Global, core: Core, line: &str) -> Result<(Core, Bytes), NoMemory> {
    let edits = edits(alloc, line)?;
    match edits.as_slice().first() {
        Some(edit) => tried(alloc, core, by(line), edit),
        None => Ok((core, List::from_slice(alloc, b"no edit")?)),
    }
}

/// What is seen of a key, or which keys an edit's words name. Nothing changes.
fn shown(alloc: Global, core: &Core, line: &str) -> Result<Bytes, NoMemory> {
    if word(line, 1) == "look" {
        return look(alloc, core, line);
    }
    needed(alloc, line)
}

/// What a command answers; a command that is none changes nothing.
fn command(alloc: Global, core: Core, line: &str) -> Result<(Core, Bytes), NoMemory> {
    match word(line, 1) {
        "edit" => edited(alloc, core, line),
        "look" | "needs" => {
            let text = shown(alloc, &core, line)?;
            Ok((core, text))
        }
        _ => queried(alloc, core, line),
    }
}

/// What a line of one caller answers, or of two.
fn taken(alloc: Global, core: Core, line: &str) -> Result<(Core, Bytes), NoMemory> {
    if word(line, 0) == "late" {
        return late(alloc, core, line);
    }
    command(alloc, core, line)
}

/// The text of a copy of an entry.
fn copied_text(alloc: Global, entry: &Entry) -> Result<Bytes, NoMemory> {
    entry_text(alloc, &entry.copy(alloc)?)
}

/// The history of a core: how many entries, and each behind a `;`.
fn history(alloc: Global, core: &Core) -> Result<Bytes, NoMemory> {
    let count = core.history().len();
    let head = format!(in alloc; "history {count}")?;
    let mut text = List::from_slice(alloc, head.as_bytes())?;
    for entry in core.history() {
        text.extend(b"; ")?;
        text.extend(copied_text(alloc, entry)?.as_slice())?;
    }
    Ok(text)
}

/// The answer of a core to a line, and the core after it.
pub fn answer(alloc: Global, core: Core, line: &str) -> Result<(Core, Bytes), NoMemory> {
    if line == "history" {
        let text = history(alloc, &core)?;
        return Ok((core, text));
    }
    let (core, answer) = taken(alloc, core, line)?;
    let count = core.history().len();
    let head = format!(in alloc; "@{count} ")?;
    let mut text = List::from_slice(alloc, head.as_bytes())?;
    text.extend(answer.as_slice())?;
    Ok((core, text))
}
