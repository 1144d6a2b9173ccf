//! Opens images and says what it finds: a case a line on standard input, an answer a line on standard output. The first line has
//! the bytes of an image in hex. A case is a question (`open`, `resources`, `at RVA`, `stream NAME`) and changes of that image (`PLACE=BYTES`, or
//! `length=LENGTH`, which cuts it or adds zeros), all numbers in hex. The answer begins with the number of the case.
#![tactic(auto)]

mod answer;
mod case;
mod facts;

use case::Case;
use std::alloc::{AllocError, Global};
use std::io;

/// The answer to a case over an image.
fn answer_to(alloc: Global, image: &[u8], line: &str) -> Result<String, AllocError> {
    let Some(case) = Case::read(alloc, image, line)? else {
        return String::from_str(alloc, "no case");
    };
    answer::answer(alloc, &case)
}

fn main(rt: HostRuntime) -> io::Result<()> {
    let alloc = rt.alloc();
    let mut image = Vec::new(alloc);
    for (number, line) in rt.lines(alloc).enumerate() {
        let line = line?;
        if number == 0 {
            image = case::bytes(alloc, line.as_str())?.unwrap_or(Vec::new(alloc));
        } else {
            let text = answer_to(alloc, image.as_slice(), line.as_str())?;
            println!(rt; "{number} {text}")?;
        }
    }
    Ok(())
}
