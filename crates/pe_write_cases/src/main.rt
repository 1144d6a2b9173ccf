//! Writes images: a case a line on standard input, an answer a line on standard output, which begins with the number of the case.
//!
//! A case has twenty words. The first eleven are the facts, in hex: whether it is PE32+ (1 or 0), machine, time, characteristics,
//! image base, subsystem, DLL characteristics, the two numbers of the runtime version, flags, entry point. Then come, as bytes,
//! the version text and what stands between the CLI header and the metadata; RVA and size of the resources in hex; and, as bytes,
//! `#~`, `#Strings`, `#US`, `#GUID`, `#Blob`. Bytes are hex, or `COUNT*HEX` for bytes repeated, or `-` for none.
//!
//! The answer is the image in hex, where it has at most 4,096 bytes, and else its length; or how many bytes are too many. A line
//! that is no case is answered by `no case`.
#![tactic(auto)]

mod answer;
mod case;
mod words;

use cil_base::NoMemory;
use std::io::{self, ErrorKind};

/// Want of memory as an error of the program.
fn wanting(_error: NoMemory) -> io::Error {
    io::Error::from(ErrorKind::OutOfMemory)
}

fn main(rt: HostRuntime) -> io::Result<()> {
    let mut number = 0_u64;
    for line in rt.lines(rt.alloc()) {
        number = number.saturating_add(1);
        match answer::answer(rt.alloc(), line?.as_str()).map_err(wanting)? {
            Some(answer) => println!(rt; "{number} {answer}")?,
            None => println!(rt; "{number} no case")?,
        }
    }
    Ok(())
}
