//! Cells and signatures, each one word: a number `n/NUMBER`, a text `t/HEX`, a blob `b/HEX`, a GUID `g/HEX`, a token
//! `r/TOKEN`, `noguid`, `noref`; a signature in hex, or `nosig`.

use crate::words::{bytes, large_number, part, token};
use cil_base::{List, NoMemory};
use node_model::{Cell, OptSig};
use sig_read::parse_sig;
use sig_tree::Sig;
use std::alloc::Global;

/// The table whose signatures are types alone.
const TYPE_SPEC: u8 = 0x1b;

/// The GUID of a text in hex.
fn guid(alloc: Global, text: &str) -> Result<Cell, NoMemory> {
    let bytes = bytes(alloc, text)?;
    match bytes.as_slice().first_chunk::<16>() {
        Some(guid) => Ok(Cell::Guid(*guid)),
        None => Ok(Cell::NoGuid),
    }
}

/// The cell of a word.
pub fn cell(alloc: Global, word: &str) -> Result<Cell, NoMemory> {
    let value = part(word, 1);
    match part(word, 0) {
        "n" => Ok(Cell::Num(large_number(value))),
        "t" => Ok(Cell::Text(bytes(alloc, value)?)),
        "b" => Ok(Cell::Blob(bytes(alloc, value)?)),
        "g" => guid(alloc, value),
        "r" => Ok(Cell::Ref(token(value))),
        "noguid" => Ok(Cell::NoGuid),
        _ => Ok(Cell::NoRef),
    }
}

/// The cells of the words of a line from a place on.
pub fn cells(alloc: Global, line: &str, first: usize) -> Result<List<Cell>, NoMemory> {
    let mut cells = List::new(alloc);
    for word in line.split(' ').skip(first) {
        cells.push(cell(alloc, word)?)?;
    }
    Ok(cells)
}

/// The signature of a word for a row of this table, if it is one.
pub fn sig(alloc: Global, table: u8, word: &str) -> Result<Option<Sig>, NoMemory> {
    let blob = bytes(alloc, word)?;
    parse_sig(alloc, table == TYPE_SPEC, blob.as_slice())
}

/// The signature of a word, or none.
pub fn opt_sig(alloc: Global, table: u8, word: &str) -> Result<OptSig, NoMemory> {
    if word == "nosig" {
        return Ok(OptSig::None);
    }
    match sig(alloc, table, word)? {
        Some(sig) => Ok(OptSig::Is(sig)),
        None => Ok(OptSig::None),
    }
}
