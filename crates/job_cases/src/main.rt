//! Reads jobs, a line each, and prints the line's number and what the job says, or why it is none. A line is the text of
//! a job, or behind `x/` its bytes in hex. A job is told as `job`, its modules as texts, and behind each `|` an actor with
//! `;` before each of its commands: `mM` and the words of a query or of an edit.
#![tactic(auto)]

mod answer;
mod cell;
mod edit;
mod instr;
mod query;
mod text;

use cil_base::NoMemory;
use std::io::{self, ErrorKind, Write};

/// Want of memory as an error of the program.
fn wanting(_error: NoMemory) -> io::Error {
    io::Error::from(ErrorKind::OutOfMemory)
}

fn main(rt: HostRuntime) -> io::Result<()> {
    let alloc = rt.alloc();
    let mut number: u32 = 0;
    for line in rt.lines(alloc) {
        number = number.wrapping_add(1);
        let line = line?;
        let text = answer::answer(alloc, line.as_str()).map_err(wanting)?;
        let head = format!(in alloc; "{number} ")?;
        rt.stdout().write_all(head.as_bytes())?;
        rt.stdout().write_all(text.as_slice())?;
        rt.stdout().write_all(b"\n")?;
    }
    Ok(())
}
