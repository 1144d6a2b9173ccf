use cil_base::{Bytes, List, NoMemory};
use dump_text::{outcome_text, reply_text};
use graph_edits::Outcome;
use lazy_core::{Peek, Published, StepAnswer, Tried};
use node_model::Key;
use std::alloc::Global;

/// What is printed of a reply or an outcome; none of any other answer.
pub fn end_text(alloc: Global, answer: &StepAnswer) -> Result<Option<Bytes>, NoMemory> {
    match answer {
        StepAnswer::Peek(Peek::Ready(reply)) => Ok(Some(reply_text(alloc, reply)?)),
        StepAnswer::Tried(Tried::Done(made)) => {
            Ok(Some(outcome_text(alloc, &Outcome::Done(*made))?))
        }
        StepAnswer::Tried(Tried::Refused(refusal)) => {
            Ok(Some(outcome_text(alloc, &Outcome::Refused(*refusal))?))
        }
        _ => Ok(None),
    }
}

/// What is printed of a key that is needed: the token of it.
fn need_text(alloc: Global, key: &Key) -> Result<Bytes, NoMemory> {
    let mut text = List::from_slice(alloc, b"need ")?;
    text.extend(&key.token().hex_digits())?;
    Ok(text)
}

/// What is printed of the keys of an edit: the last of them, which is needed.
fn last_need_text(alloc: Global, keys: &[Key]) -> Result<Bytes, NoMemory> {
    match keys.last() {
        Some(key) => need_text(alloc, key),
        None => List::from_slice(alloc, b"need"),
    }
}

/// What is printed of an answer that is neither a reply nor an outcome.
fn step_text(alloc: Global, answer: &StepAnswer) -> Result<Bytes, NoMemory> {
    match answer {
        StepAnswer::Peek(Peek::Need(key)) => need_text(alloc, key),
        StepAnswer::Tried(Tried::Need(keys)) => last_need_text(alloc, keys.as_slice()),
        StepAnswer::Published(Published::Stored) => List::from_slice(alloc, b"stored"),
        StepAnswer::Published(Published::Already) => List::from_slice(alloc, b"already"),
        _ => List::from_slice(alloc, b"skipped"),
    }
}

/// What is printed of an answer.
fn text(alloc: Global, answer: &StepAnswer) -> Result<Bytes, NoMemory> {
    match end_text(alloc, answer)? {
        Some(text) => Ok(text),
        None => step_text(alloc, answer),
    }
}

/// What is printed of a copy of an answer.
fn copied_text(alloc: Global, answer: &StepAnswer) -> Result<Bytes, NoMemory> {
    text(alloc, &answer.copy(alloc)?)
}

/// What is printed of answers, with `; ` between each two.
pub fn texts(alloc: Global, answers: &[StepAnswer]) -> Result<Bytes, NoMemory> {
    let mut all = List::new(alloc);
    for answer in answers {
        if !all.as_slice().is_empty() {
            all.extend(b"; ")?;
        }
        all.extend(copied_text(alloc, answer)?.as_slice())?;
    }
    Ok(all)
}
