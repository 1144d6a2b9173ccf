//! Edits the graphs of images and asks them, a line a step, and prints the line's number and the answer. The answers
//! that are wanted came from elsewhere, and not from this program.
//!
//! | line | answer |
//! |---|---|
//! | `open FILE` | `opened`, where the file is an image of the current folder; the lines that follow are of its graph |
//! | `COMMAND query ..`, `COMMAND edit ..` | after `@` the history's number of entries, and the reply or the outcome |
//! | `COMMAND fill ..` | the same number, and the token of the key that a query needs and that is filled, or `ready` |
//! | `COMMAND look ..` | the same number, and what is seen of the key that a query looks at |
//! | `COMMAND needs ..` | the same number, how many keys the words of an edit name, and behind each `;` one of them |
//! | `late TOKEN ..` | the same number, and the answers to the steps of two callers |
//! | `history` | how many entries there are, and behind each `;` one of them |
//!
//! COMMAND is the number of a caller's command; but for `late` the caller is 0. A key that a query or an edit needs is
//! read and filled, and the command goes on, as often as it needs one. Queries are those of `query.rt`, edits those of
//! `edit.rt`. The steps of `late` are those of `late.rt`: caller 0 asks for the row of TOKEN, caller 1 tries an edit,
//! publishes what it needs and tries it again, and then caller 0 publishes what it needed, and asks again.
#![tactic(auto)]

mod body;
mod cell;
mod edit;
mod instr;
mod late;
mod looked;
mod query;
mod run;
mod texts;
mod words;

use cil_base::{Bytes, List, NoMemory};
use lazy_core::Core;
use node_read::Image;
use std::alloc::Global;
use std::fs;
use std::io::{self, ErrorKind, Read, Write};
use std::rt::Files;
use std::sync::Arc;
use words::word;

/// The core of a file of the current folder; none where it is no image.
fn open<R: Files>(alloc: Global, rt: &R, name: &str) -> Result<Option<Core>, NoMemory> {
    let mut bytes = Vec::new(alloc);
    let Ok(mut file) = fs::open(rt, name) else {
        return Ok(None);
    };
    let Ok(_) = file.read_to_end(&mut bytes) else {
        return Ok(None);
    };
    let Ok(image) = Image::open(alloc, bytes) else {
        return Ok(None);
    };
    let core = Core::open(alloc, Arc::new(alloc, image)?)?;
    Ok(Some(core))
}

/// What is said of a file that was opened.
fn opened(alloc: Global, core: &Option<Core>) -> Result<Bytes, NoMemory> {
    match core {
        Some(_) => List::from_slice(alloc, b"opened"),
        None => List::from_slice(alloc, b"no image"),
    }
}

/// The answer to a line, and the core after it.
fn answer<R: Files>(
    alloc: Global,
    rt: &R,
    core: Option<Core>,
    line: &str,
) -> Result<(Option<Core>, Bytes), NoMemory> {
    if word(line, 0) == "open" {
        let core = open(alloc, rt, word(line, 1))?;
        let text = opened(alloc, &core)?;
        return Ok((core, text));
    }
    let Some(core) = core else {
        return Ok((None, List::from_slice(alloc, b"no graph")?));
    };
    let (core, text) = run::answer(alloc, core, line)?;
    Ok((Some(core), text))
}

/// Want of memory as an error of the program.
fn wanting(_error: NoMemory) -> io::Error {
    io::Error::from(ErrorKind::OutOfMemory)
}

fn main(rt: HostRuntime) -> io::Result<()> {
    let alloc = rt.alloc();
    let mut number: u32 = 0;
    let mut core = None;
    for line in rt.lines(alloc) {
        number = number.wrapping_add(1);
        let line = line?;
        let (next, text) = answer(alloc, &rt, core, line.as_str()).map_err(wanting)?;
        core = next;
        let head = format!(in alloc; "{number} ")?;
        rt.stdout().write_all(head.as_bytes())?;
        rt.stdout().write_all(text.as_slice())?;
        rt.stdout().write_all(b"\n")?;
    }
    Ok(())
}
