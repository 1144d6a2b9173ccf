use crate::print::next_text;
use crate::reply::reply;
use crate::words::{count, token, word};
use cil_base::{Bytes, List, NoMemory};
use resolver::{Ask, Next};
use std::alloc::Global;

/// The ask that the first part of a line begins.
fn begun(alloc: Global, part: &str) -> Ask {
    let modules = count(word(part, 1));
    let home = count(word(part, 2));
    let token = token(word(part, 3));
    match word(part, 0) {
        "attribute" => Ask::attribute(alloc, modules, home, token),
        _ => Ask::resolve(alloc, modules, home, token),
    }
}

/// What is printed of a copy of a question or an end.
fn copied_text(alloc: Global, next: &Next) -> Result<Bytes, NoMemory> {
    let copy = next.copy(alloc)?;
    next_text(alloc, &copy)
}

/// Gives one more reply, if one is asked for.
fn give(alloc: Global, ask: &mut Ask, part: &str, out: &mut Bytes) -> Result<(), NoMemory> {
    let next = ask.next()?;
    let text = next_text(alloc, &next)?;
    out.extend(text.as_slice())?;
    out.extend(b", ")?;
    match next {
        Next::Question { .. } => ask.answered(reply(alloc, part)?),
        _ => Ok(()),
    }
}

/// The questions of a case, and its end or the question that was not replied to.
pub fn answer(alloc: Global, line: &str) -> Result<Bytes, NoMemory> {
    let mut out = List::new(alloc);
    let mut parts = line.split("; ");
    let mut ask = begun(alloc, parts.next().unwrap_or(""));
    for part in parts {
        give(alloc, &mut ask, part, &mut out)?;
    }
    let text = copied_text(alloc, &ask.next()?)?;
    out.extend(text.as_slice())?;
    Ok(out)
}
