//! Runs `tool` over cases of standard input, one a line: `WORD WORD ..; CHANGE; .. -- JOB`, and prints of each its number,
//! the number of its status and the status's line, then the text with two spaces before each line.
//!
//! JOB is what the file `job.json` of the run's folder holds; without ` -- ` there is none. A change is
//!
//! | change | what it does |
//! |---|---|
//! | `file NAME SOURCE` | the folder has the file SOURCE of the current folder, as NAME |
//! | `zeros NAME LENGTH` | the folder has a file of so many zero bytes |
//! | `set NAME PLACE BYTE` | sets the byte at a place of a file of the folder |
//! | `read CALL` | the read of this number fails |
//! | `write CALL` | the write of this number fails |
//! | `sound` | a folder and an outlet of which no call fails |
//! | `hold ACTOR` | this one of actors 0 and 1 is held where its first command needs a key, until the other's was answered |
//! | `late ACTOR` | the same, where the text has one form alone, which is printed |
//! | `meet` | actors 0 and 1 wait for each other while they decode |
//!
//! With `hold` and `meet` what the gate tells of the run is printed in place of the text.
#![tactic(auto)]

mod case;
mod gates;
mod outcome;
mod setting;

use cil_base::NoMemory;
use std::io::{self, ErrorKind, Write};

/// Want of memory as an error of the program.
fn wanting(_error: NoMemory) -> io::Error {
    io::Error::from(ErrorKind::OutOfMemory)
}

fn main(rt: HostRuntime) -> io::Result<()> {
    let mut number = 0_u64;
    for line in rt.lines(rt.alloc()) {
        number = number.saturating_add(1);
        let text = case::answer(&rt, rt.alloc(), number, line?.as_str()).map_err(wanting)?;
        rt.stdout().write_all(text.as_slice())?;
    }
    Ok(())
}
