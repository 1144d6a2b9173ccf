//! Reads cases of standard input, one a line, and prints the number of each and its answer.
//!
//! | case | answer |
//! |---|---|
//! | `hex SIZES ROW ..` | the tables stream of the rows in hex |
//! | `digest SIZES ROW ..` | how many bytes it has, and their digest (FNV-1a, 64 bits) |
//!
//! SIZES has the bits of the large heaps. ROW is `TABLE:NUMBER,..`, a row of the table of this number in hex, with a
//! number for each column, or `TABLE*COUNT:NUMBER,..` for so many equal rows. Rows that do not fit the columns are
//! answered by `no rows`, and a line that is no case by `no case`. The answers that are wanted were made from the lists
//! of ECMA-335 (II.22 and II.24.2.6), and not by this program.
#![tactic(auto)]

mod case;
mod fit;
mod row_words;

use cil_base::NoMemory;
use std::io::{self, ErrorKind};

/// Want of memory as an error of the program.
fn wanting(_error: NoMemory) -> io::Error {
    io::Error::from(ErrorKind::OutOfMemory)
}

fn main(rt: HostRuntime) -> io::Result<()> {
    let mut number = 0_u64;
    for line in rt.lines(rt.alloc()) {
        number = number.saturating_add(1);
        match case::answer(rt.alloc(), line?.as_str()).map_err(wanting)? {
            Some(answer) => println!(rt; "{number} {answer}")?,
            None => println!(rt; "{number} no case")?,
        }
    }
    Ok(())
}
