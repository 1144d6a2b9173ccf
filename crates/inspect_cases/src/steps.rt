use cil_base::{Bytes, List, NoMemory, Token};
use dump_text::reply_text;
use lazy_core::{Core, Peek, Published, Step, StepAnswer, Tried, run_steps};
use node_model::{By, Query};
use node_read::Image;
use std::alloc::Global;
use std::sync::Arc;

/// A caller asks a query.
fn asked(caller: u32, query: Query) -> Step {
    let by = By {
        caller,
        command: 0,
        step: 0,
    };
    Step::Peek { by, query }
}

/// Adds that the row is asked for twice before it is filled.
fn add_wants(steps: &mut List<Step>, token: Token) -> Result<(), NoMemory> {
    steps.push(asked(0, Query::Row(token)))?;
    steps.push(asked(0, Query::Row(token)))?;
    Ok(())
}

/// Adds what both publish, a step that publishes what no step wanted, and the query again.
fn add_publishes(steps: &mut List<Step>, query: Query) -> Result<(), NoMemory> {
    steps.push(Step::Publish { of: 0 })?;
    steps.push(Step::Publish { of: 1 })?;
    steps.push(Step::Publish { of: 9 })?;
    steps.push(asked(1, query))?;
    Ok(())
}

/// Two callers want a row, both publish it, and it is asked for again, with the number of filled keys.
fn steps(alloc: Global, token: Token) -> Result<List<Step>, NoMemory> {
    let mut steps = List::new(alloc);
    add_wants(&mut steps, token)?;
    add_publishes(&mut steps, Query::Row(token))?;
    steps.push(asked(1, Query::Filled))?;
    Ok(steps)
}

/// The text of an answer.
fn text(alloc: Global, answer: &StepAnswer) -> Result<Bytes, NoMemory> {
    match answer {
        StepAnswer::Peek(Peek::Ready(reply)) => reply_text(alloc, reply),
        StepAnswer::Peek(Peek::Need(key)) => List::from_slice(alloc, &key.token().hex_digits()),
        StepAnswer::Tried(Tried::Done(_)) => List::from_slice(alloc, b"done"),
        StepAnswer::Tried(Tried::Refused(_)) => List::from_slice(alloc, b"refused"),
        StepAnswer::Tried(Tried::Need(_)) => List::from_slice(alloc, b"need"),
        StepAnswer::Published(Published::Stored) => List::from_slice(alloc, b"stored"),
        StepAnswer::Published(Published::Already) => List::from_slice(alloc, b"already"),
        StepAnswer::Skipped => List::from_slice(alloc, b"skipped"),
    }
}

/// The text of a copy of an answer.
fn copied(alloc: Global, answer: &StepAnswer) -> Result<Bytes, NoMemory> {
    text(alloc, &answer.copy(alloc)?)
}

/// Adds the answers, each with `; ` before it.
fn add_answers(alloc: Global, line: &mut Vec<u8>, answers: &[StepAnswer]) -> Result<(), NoMemory> {
    for answer in answers {
        line.extend_from_slice(b"; ")?;
        line.extend_from_slice(copied(alloc, answer)?.as_slice())?;
    }
    Ok(())
}

/// What the steps answer on a core of an image.
fn answers(alloc: Global, image: Image, token: Token) -> Result<List<StepAnswer>, NoMemory> {
    let steps = steps(alloc, token)?;
    let core = Core::open(alloc, Arc::new(alloc, image)?)?;
    let (_core, answers) = run_steps(alloc, core, &steps)?;
    Ok(answers)
}

/// The line of a case that takes the steps; `no image` where the bytes are none.
pub fn line(alloc: Global, case: u64, file: Vec<u8>, token: Token) -> Result<Vec<u8>, NoMemory> {
    let head = format!(in alloc; "{case} steps")?;
    let mut line = Vec::from_slice(alloc, head.as_bytes())?;
    match Image::open(alloc, file) {
        Ok(image) => add_answers(alloc, &mut line, answers(alloc, image, token)?.as_slice())?,
        Err(_) => line.extend_from_slice(b"; no image")?,
    }
    line.push(b'\n')?;
    Ok(line)
}
