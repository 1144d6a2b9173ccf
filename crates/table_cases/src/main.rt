//! Reads a case a line, calls the library's public calls, and prints the case's number and the answer. The answers that
//! are wanted were made from the lists of ECMA-335 (II.22, II.23.2 and II.24.2), and not by this program.
#![tactic(auto)]

mod base_cases;
mod heap_cases;
mod many_rows;
mod schema_cases;
mod stream_cases;
mod words;

use std::alloc::{AllocError, Global};
use std::io;

/// The answer to a case, over the stream that the last `stream` or `rows` case gave.
fn answer(alloc: Global, line: &str, stream: &[u8]) -> Result<String, AllocError> {
    if let Some(answer) = base_cases::answer(alloc, line)? {
        return Ok(answer);
    }
    if let Some(answer) = heap_cases::answer(alloc, line)? {
        return Ok(answer);
    }
    if let Some(answer) = schema_cases::answer(alloc, line)? {
        return Ok(answer);
    }
    stream_cases::answer(alloc, line, stream)
}

fn main(rt: HostRuntime) -> io::Result<()> {
    let alloc = rt.alloc();
    let mut stream = Vec::new(alloc);
    let mut number: u32 = 0;
    for line in rt.lines(alloc) {
        let line = line?;
        number = number.wrapping_add(1);
        if let Some(given) = many_rows::stream(alloc, line.as_str())? {
            stream = given;
        }
        let answer = answer(alloc, line.as_str(), stream.as_slice())?;
        println!(rt; "{number} {answer}")?;
    }
    Ok(())
}
