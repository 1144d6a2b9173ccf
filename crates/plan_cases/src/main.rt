//! Plans how images are written, a line a step, and prints the line's number and the answer. The answers that are
//! wanted came from elsewhere, and not from this program.
//!
//! | line | answer |
//! |---|---|
//! | `open FILE` | `opened`, where the file is an image of the current folder; the lines that follow are of its graph |
//! | `edit ..` | the outcome of an edit of `edit.rt` |
//! | `plan` | `planned` |
//! | `counts` | how many rows of each table are kept |
//! | `kept TABLE` | the rows of a table in the order in which they are written; TABLE is in hex |
//! | `numbers TOKEN ..` | their new numbers, or `none` |
//! | `value KEY` | what a key of `planned.rt` holds, with its tokens by new numbers, or `none` |
//!
//! Where the graph is not written, the last five answer why.
#![tactic(auto)]

mod edit;
mod edited;
mod planned;
mod refusal;
mod words;

use cil_base::{Bytes, List, NoMemory};
use edited::edited;
use lazy_core::Core;
use node_read::Image;
use planned::planned;
use std::alloc::Global;
use std::fs;
use std::io::{self, ErrorKind, Read, Write};
use std::rt::Files;
use std::sync::Arc;
use words::word;

/// The core of a file of the current folder; none where it is no image.
fn open<R: Files>(alloc: Global, rt: &R, name: &str) -> Result<Option<Core>, NoMemory> {
    let mut bytes = Vec::new(alloc);
    let Ok(mut file) = fs::open(rt, name) else {
        return Ok(None);
    };
    let Ok(_) = file.read_to_end(&mut bytes) else {
        return Ok(None);
    };
    let Ok(image) = Image::open(alloc, bytes) else {
        return Ok(None);
    };
    let core = Core::open(alloc, Arc::new(alloc, image)?)?;
    Ok(Some(core))
}

/// What is said of a file that was opened.
fn opened(alloc: Global, core: &Option<Core>) -> Result<Bytes, NoMemory> {
    match core {
        Some(_) => List::from_slice(alloc, b"opened"),
        None => List::from_slice(alloc, b"no image"),
    }
}

/// The answer of a core to a line, and the core after it.
fn taken(alloc: Global, core: Core, line: &str) -> Result<(Core, Bytes), NoMemory> {
    if word(line, 0) == "edit" {
        return edited(alloc, core, line);
    }
    let text = planned(alloc, &core, line)?;
    Ok((core, text))
}

/// The answer to a line, and the core after it.
fn answer<R: Files>(
    alloc: Global,
    rt: &R,
    core: Option<Core>,
    line: &str,
) -> Result<(Option<Core>, Bytes), NoMemory> {
    if word(line, 0) == "open" {
        let core = open(alloc, rt, word(line, 1))?;
        let text = opened(alloc, &core)?;
        return Ok((core, text));
    }
    let Some(core) = core else {
        return Ok((None, List::from_slice(alloc, b"no graph")?));
    };
    let (core, text) = taken(alloc, core, line)?;
    Ok((Some(core), text))
}

/// Want of memory as an error of the program.
fn wanting(_error: NoMemory) -> io::Error {
    io::Error::from(ErrorKind::OutOfMemory)
}

fn main(rt: HostRuntime) -> io::Result<()> {
    let alloc = rt.alloc();
    let mut number: u32 = 0;
    let mut core = None;
    for line in rt.lines(alloc) {
        number = number.wrapping_add(1);
        let line = line?;
        let (next, text) = answer(alloc, &rt, core, line.as_str()).map_err(wanting)?;
        core = next;
        let head = format!(in alloc; "{number} ")?;
        rt.stdout().write_all(head.as_bytes())?;
        rt.stdout().write_all(text.as_slice())?;
        rt.stdout().write_all(b"\n")?;
    }
    Ok(())
}
