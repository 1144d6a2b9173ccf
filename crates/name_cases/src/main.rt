//! Names cases of standard input, one a line, and prints the number of each and its answer. Fields are parted by `|`:
//!
//! | case | answer |
//! |---|---|
//! | `token\|KEY` | the token of a public key in hex, itself in hex |
//! | `assembly\|NAME\|A.B.C.D\|CULTURE\|TOKEN` | the full name of the assembly; the token in hex |
//! | `guid\|BYTES` | the text of a stored GUID, of its bytes in hex |
//!
//! A line that is no case is answered by `no case`.
#![tactic(auto)]

mod case;

use cil_base::NoMemory;
use std::io::{self, ErrorKind, Write};

/// Want of memory as an error of the program.
fn wanting(_error: NoMemory) -> io::Error {
    io::Error::from(ErrorKind::OutOfMemory)
}

fn main(rt: HostRuntime) -> io::Result<()> {
    let mut number = 0_u64;
    for line in rt.lines(rt.alloc()) {
        number = number.saturating_add(1);
        let answer = case::answer(rt.alloc(), line?.as_str()).map_err(wanting)?;
        print!(rt; "{number} ")?;
        rt.stdout().write_all(answer.as_slice())?;
        println!(rt; "")?;
    }
    Ok(())
}
