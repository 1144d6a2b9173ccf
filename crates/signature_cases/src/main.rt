//! Reads a case a line, calls `sig_tree`, `sig_read` and `sig_text`, and prints the case's number and the answer. The
//! answers that are wanted were made from the lists of ECMA-335 (II.23.1.16 and II.23.2), and not by this program.
//!
//! SORT is `type` for a type alone and `sig` for a signature of another sort, HEX its bytes.
//!
//! | case | answer |
//! |---|---|
//! | `read SORT HEX` | what is shown of the signature: its printed form, its type tokens, and the bytes it is spelled with |
//! | `copy SORT HEX` | the same of a copy |
//! | `named SORT HEX NAME..` | the printed form with these names; `count` where there are as many tokens not |
//! | `replace SORT HEX TOKEN..` | what is shown with these tokens; `refused` where there are more or fewer, or one names no type |
//! | `same SORT HEX SORT HEX` | `same` or `other` |
//! | `of TREE` | what is shown of the signature of a tree, described as in `tree.rt` |
//!
//! The answer is `none` where a blob or a tree is no signature.
#![tactic(auto)]

mod read;
mod shown;
mod tree;
mod words;

use cil_base::{Bytes, List, NoMemory};
use std::alloc::Global;
use std::io::{self, ErrorKind, Write};
use words::word;

/// The answer to a case.
fn answer(alloc: Global, line: &str) -> Result<Bytes, NoMemory> {
    match word(line, 0) {
        "read" => read::read(alloc, line),
        "copy" => read::copied(alloc, line),
        "named" => read::named(alloc, line),
        "replace" => read::replaced(alloc, line),
        "same" => read::compared(alloc, line),
        "of" => tree::answer(alloc, line),
        _ => List::from_slice(alloc, b"?"),
    }
}

/// Want of memory as an error of the program.
fn wanting(_error: NoMemory) -> io::Error {
    io::Error::from(ErrorKind::OutOfMemory)
}

fn main(rt: HostRuntime) -> io::Result<()> {
    let alloc = rt.alloc();
    let mut number: u32 = 0;
    for line in rt.lines(alloc) {
        number = number.wrapping_add(1);
        let line = line?;
        let answer = answer(alloc, line.as_str()).map_err(wanting)?;
        let head = format!(in alloc; "{number} ")?;
        rt.stdout().write_all(head.as_bytes())?;
        rt.stdout().write_all(answer.as_slice())?;
        rt.stdout().write_all(b"\n")?;
    }
    Ok(())
}
