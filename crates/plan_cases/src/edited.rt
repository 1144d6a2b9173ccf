use crate::edit::edit;
use cil_base::{Bytes, List, NoMemory};
use dump_text::outcome_text;
use graph_edits::Outcome;
use lazy_core::{Core, Step, StepAnswer, Tried, run_steps};
use node_model::By;
use std::alloc::Global;

/// The most keys that the edit of a case may need.
const MOST_NEEDS: u32 = 64;

/// A step that tries the edit of a line, and the publishing of what it is told to need.
fn round(alloc: Global, line: &str) -> Result<List<Step>, NoMemory> {
    let by = By {
        caller: 0,
        command: 0,
        step: 0,
    };
    let edit = edit(alloc, line)?;
    let mut steps = List::new(alloc);
    steps.push(Step::TryEdit { by, edit })?;
    steps.push(Step::Publish { of: 0 })?;
    Ok(steps)
}

/// What is printed of an outcome; none of any other answer.
fn text(alloc: Global, answer: &StepAnswer) -> Result<Option<Bytes>, NoMemory> {
    match answer {
        StepAnswer::Tried(Tried::Done(made)) => {
            Ok(Some(outcome_text(alloc, &Outcome::Done(*made))?))
        }
        StepAnswer::Tried(Tried::Refused(refusal)) => {
            Ok(Some(outcome_text(alloc, &Outcome::Refused(*refusal))?))
        }
        _ => Ok(None),
    }
}

/// What is printed of the first of the answers.
fn first_text(alloc: Global, answers: &[StepAnswer]) -> Result<Option<Bytes>, NoMemory> {
    match answers.first() {
        Some(answer) => text(alloc, answer),
        None => Ok(None),
    }
}

/// Tries the edit of a line, and publishes what it is told to need.
fn once(alloc: Global, core: Core, line: &str) -> Result<(Core, Option<Bytes>), NoMemory> {
    let steps = round(alloc, line)?;
    let (core, answers) = run_steps(alloc, core, &steps)?;
    let text = first_text(alloc, answers.as_slice())?;
    Ok((core, text))
}

/// Tries the edit of a line until it is answered.
pub fn edited(alloc: Global, core: Core, line: &str) -> Result<(Core, Bytes), NoMemory> {
    let mut core = core;
    for _ in 0..MOST_NEEDS {
        let (next, text) = once(alloc, core, line)?;
        core = next;
        if let Some(text) = text {
            return Ok((core, text));
        }
    }
    Ok((core, List::from_slice(alloc, b"needs too many keys")?))
}
