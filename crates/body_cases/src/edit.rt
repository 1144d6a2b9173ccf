//! Edits of a case: `edit VERB AT ITEM WORD..` over the body of the words. The answer is `done` or the refusal, and the
//! body after it.
//!
//! | verb | edit |
//! |---|---|
//! | `insert`, `replace` | the instruction of ITEM before number AT, or in its place |
//! | `remove` | instruction number AT is taken out |
//! | `add` | the handler of ITEM behind the others |
//! | `drop` | handler number AT is taken out |

use crate::build::{self, handler, instr};
use crate::shown;
use crate::words::{number, word};
use cil_base::NoMemory;
use il_code::Body;
use il_edit::{IlFail, IlRefusal, add_handler, insert, remove, remove_handler, replace};
use std::alloc::Global;

/// How an edit ends, and the body after it.
pub fn answer(alloc: Global, line: &str) -> Result<String, NoMemory> {
    let Some(body) = build::body(alloc, line, 4)? else {
        return Ok(String::from_str(alloc, "?")?);
    };
    let mut body = body;
    let outcome = edit(alloc, line, &mut body)?;
    let outcome = told(alloc, outcome)?;
    let shown = shown::body(alloc, &body)?;
    Ok(format!(in alloc; "{outcome} | {shown}")?)
}

/// Why the edit of a case is refused, if it is.
fn edit(alloc: Global, line: &str, body: &mut Body) -> Result<Option<IlRefusal>, NoMemory> {
    let at = number(word(line, 2));
    let item = word(line, 3);
    match word(line, 1) {
        "insert" => failed(insert(body, at, instr(alloc, item)?)),
        "replace" => Ok(replace(body, at, instr(alloc, item)?).err()),
        "remove" => Ok(remove(body, at).err()),
        "add" => failed(add_handler(body, handler(item))),
        _ => Ok(remove_handler(body, at).err()),
    }
}

/// The refusal of an edit that takes memory.
fn failed(outcome: Result<(), IlFail>) -> Result<Option<IlRefusal>, NoMemory> {
    match outcome {
        Ok(()) => Ok(None),
        Err(IlFail::Refused(refusal)) => Ok(Some(refusal)),
        Err(IlFail::NoMemory) => Err(NoMemory),
    }
}

/// `done`, or a refusal and its numbers.
fn told(alloc: Global, refusal: Option<IlRefusal>) -> Result<String, NoMemory> {
    match refusal {
        None => Ok(String::from_str(alloc, "done")?),
        Some(IlRefusal::PlaceBeyond(at, count)) => Ok(format!(in alloc; "beyond {at} {count}")?),
        Some(IlRefusal::BadCode(number)) => Ok(format!(in alloc; "code {number}")?),
        Some(IlRefusal::BadHandler(number)) => Ok(format!(in alloc; "handler {number}")?),
    }
}
