//! Asks where references lead and what attributes say, a case a line, and prints of each its number, the questions and
//! the end. The answers that are wanted were made by tools/resolver_cases.py, and not by this program.
//!
//! A case is a start, `resolve` or `attribute` with the number of modules, the number of the token's module and the
//! token, and then the replies, each behind a `;`:
//!
//! | reply | what it is |
//! |---|---|
//! | `row TOKEN CELL..` | a row; a cell is `n/NUMBER`, `t/TEXT`, `b/HEX`, `r/TOKEN`, `noref` or `noguid` |
//! | `sig TOKEN HEX` | a signature by its bytes |
//! | `name TOKEN TEXT` | a name |
//! | `owned TOKEN TABLE TOKEN..`, `nested TOKEN TOKEN..`, `inside TOKEN TOKEN..` | a list: of a table in hex, of the link Nested, of the link NestedClass |
//! | `found TOKEN`, `notfound`, `filled NUMBER`, `fault TOKEN`, `absent TOKEN`, `removed TOKEN`, `wrongkind TOKEN` | the others |
//!
//! In a text `~` stands for a space. A question is `mN` with the number of its module, and `row T`, `sig T`, `name T`,
//! `members T TABLE`, `nested T`, `type NAMESPACE NAME` or `member T TABLE NAME SIG`.
#![tactic(auto)]

mod cell;
mod print;
mod reply;
mod run;
mod value;
mod words;

use cil_base::NoMemory;
use std::io::{self, ErrorKind, Write};

/// Want of memory as an error of the program.
fn wanting(_error: NoMemory) -> io::Error {
    io::Error::from(ErrorKind::OutOfMemory)
}

fn main(rt: HostRuntime) -> io::Result<()> {
    let mut number = 0_u64;
    for line in rt.lines(rt.alloc()) {
        number = number.saturating_add(1);
        let answer = run::answer(rt.alloc(), line?.as_str()).map_err(wanting)?;
        print!(rt; "{number} ")?;
        rt.stdout().write_all(answer.as_slice())?;
        println!(rt; "")?;
    }
    Ok(())
}
