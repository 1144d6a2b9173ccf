//! Runs `inspect` over cases of standard input, one a line: `FILE; CHANGE; .. -- WORD WORD ..`, and prints of each its
//! number, the number of its status and the status's line, then the text with two spaces before each line.
//!
//! FILE is a file of the current folder, which the run's folder has alone, or `-` for a folder without files. A change
//! is
//!
//! | change | what it does |
//! |---|---|
//! | `set PLACE BYTE` | sets the byte at a place, both in hex |
//! | `cut LENGTH` | cuts the file to a length |
//! | `grow LENGTH` | lengthens the file by zeros |
//! | `twice BYTE` | adds a second file of the name, which is this byte alone |
//! | `read CALL` | the read of this number fails |
//! | `write CALL` | the write of this number fails |
//! | `content LIMIT` | runs nothing, and prints what the folder gives for FILE within a limit of bytes |
//! | `steps TOKEN` | runs nothing; two callers want the row of a token and publish it, and the answers are printed |
//! | `sound` | a folder and an outlet of which no call fails |
//! | `cuts FROM TO` | runs once for each length, and prints a digest of all statuses, lines and texts |
//! | `bytes FROM TO BYTE` | runs once with each of these places set to the byte, and prints the digest |
#![tactic(auto)]

mod case;
mod digest;
mod number;
mod run;
mod steps;

use cil_base::NoMemory;
use std::io::{self, ErrorKind, Write};

/// Want of memory as an error of the program.
fn wanting(_error: NoMemory) -> io::Error {
    io::Error::from(ErrorKind::OutOfMemory)
}

fn main(rt: HostRuntime) -> io::Result<()> {
    let mut number = 0_u64;
    for line in rt.lines(rt.alloc()) {
        number = number.saturating_add(1);
        let text = case::answer(&rt, number, line?.as_str()).map_err(wanting)?;
        rt.stdout().write_all(text.as_slice())?;
    }
    Ok(())
}
