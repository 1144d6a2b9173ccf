//! A late publish: a caller is told to need a row, another one edits the graph, and then the first one publishes what
//! the file says of the row.

use crate::edit::edits;
use crate::texts::texts;
use crate::words::{token, word};
use cil_base::{Bytes, List, NoMemory, Token};
use lazy_core::{Core, Step, run_steps};
use node_model::{By, Edit, Query};
use std::alloc::Global;

/// The first command of a caller.
fn by(caller: u32) -> By {
    By {
        caller,
        command: 0,
        step: 0,
    }
}

/// The caller that is late asks for a row.
fn asked(row: Token) -> Step {
    Step::Peek {
        by: by(0),
        query: Query::Row(row),
    }
}

/// The other caller tries an edit.
fn tried(alloc: Global, edit: &Edit) -> Result<Step, NoMemory> {
    let edit = edit.copy(alloc)?;
    Ok(Step::TryEdit { by: by(1), edit })
}

/// The step of a number once more.
fn again(alloc: Global, steps: &[Step], of: usize) -> Result<Step, NoMemory> {
    match steps.get(of) {
        Some(step) => step.copy(alloc),
        None => Ok(Step::Publish { of: 0 }),
    }
}

/// Adds an edit that is tried, the publishing of what it is told to need, and the same edit again.
fn add_edit(alloc: Global, steps: &mut List<Step>, edit: &Edit) -> Result<(), NoMemory> {
    steps.push(tried(alloc, edit)?)?;
    steps.push(Step::Publish { of: 1 })?;
    let again = again(alloc, steps.as_slice(), 1)?;
    steps.push(again)
}

/// The steps of both callers.
fn steps(alloc: Global, row: Token, edit: &Edit) -> Result<List<Step>, NoMemory> {
    let mut steps = List::new(alloc);
    steps.push(asked(row))?;
    add_edit(alloc, &mut steps, edit)?;
    steps.push(Step::Publish { of: 0 })?;
    steps.push(asked(row))?;
    Ok(steps)
}

/// What the steps of an edit and of a row answer.
fn answers(alloc: Global, core: Core, row: Token, edit: &Edit) -> Result<(Core, Bytes), NoMemory> {
    let steps = steps(alloc, row, edit)?;
    let (core, answers) = run_steps(alloc, core, &steps)?;
    let text = texts(alloc, answers.as_slice())?;
    Ok((core, text))
}

/// What the steps of a line answer; an edit that is none changes nothing.
pub fn late(alloc: Global, core: Core, line: &str) -> Result<(Core, Bytes), NoMemory> {
    let edits = edits(alloc, line)?;
    match edits.as_slice().first() {
        Some(edit) => answers(alloc, core, token(word(line, 1)), edit),
        None => Ok((core, List::from_slice(alloc, b"no edit")?)),
    }
}
