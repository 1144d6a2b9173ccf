//! Decodes blobs of attributes on standard input, one a line, `TYPES|WIDTHS|BLOB`, and prints of each its number and
//!
//! | what is printed | where |
//! |---|---|
//! | `value [FIXED,..] NAMED .. = BYTES` | the blob is a value with these arguments, and is spelled so |
//! | `unknown NAME` | the width of the enum is needed |
//! | `bad` | there is neither |
//! | `no case` | the line is none |
//!
//! Types are parted by spaces: an element type in two hex digits, `text`, `type`, `boxed`, `enum:NAME`, each with `[]`
//! before it for an array. So are widths, `NAME=ELEMENT`.
#![tactic(auto)]

mod case;
mod print;
mod words;

use cil_base::NoMemory;
use std::io::{self, ErrorKind, Write};

/// Want of memory as an error of the program.
fn wanting(_error: NoMemory) -> io::Error {
    io::Error::from(ErrorKind::OutOfMemory)
}

fn main(rt: HostRuntime) -> io::Result<()> {
    let mut number = 0_u64;
    for line in rt.lines(rt.alloc()) {
        number = number.saturating_add(1);
        let answer = case::answer(rt.alloc(), line?.as_str()).map_err(wanting)?;
        print!(rt; "{number} ")?;
        rt.stdout().write_all(answer.as_slice())?;
        println!(rt; "")?;
    }
    Ok(())
}
