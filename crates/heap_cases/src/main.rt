//! Reads cases of standard input, one a line, and prints the number of each and its answer.
//!
//! | case | answer |
//! |---|---|
//! | `HEAP:CONTENT ..` | the index of each content, and the finished heaps #Strings, #US, #GUID and #Blob in hex |
//! | `many COUNT DISTINCT` | how many texts were new, the size of #Strings, and the sum of the indexes |
//!
//! HEAP is `text`, `user`, `guid` or `blob`. CONTENT is hex text, or `COUNT*HEX` for bytes repeated; those of a user string
//! are its UTF-16 units, the low byte of each first. Of a heap past 64 bytes only the first 24 and the last 8 are printed,
//! and its size. `many` puts COUNT texts in, of which DISTINCT differ. A line that is no case is answered by `no case`.
#![tactic(auto)]

mod case;
mod content;
mod many;

use cil_base::NoMemory;
use std::io::{self, ErrorKind};

/// Want of memory as an error of the program.
fn wanting(_error: NoMemory) -> io::Error {
    io::Error::from(ErrorKind::OutOfMemory)
}

fn main(rt: HostRuntime) -> io::Result<()> {
    let mut number = 0_u64;
    for line in rt.lines(rt.alloc()) {
        number = number.saturating_add(1);
        match case::answer(rt.alloc(), line?.as_str()).map_err(wanting)? {
            Some(answer) => println!(rt; "{number} {answer}")?,
            None => println!(rt; "{number} no case")?,
        }
    }
    Ok(())
}
