use crate::words::{bytes, number, text, token};
use cil_base::{List, NoMemory};
use node_model::Cell;
use std::alloc::Global;

fn cell(alloc: Global, word: &str) -> Result<Cell, NoMemory> {
    let (kind, value) = word.split_once('/').unwrap_or((word, ""));
    match kind {
        "n" => Ok(Cell::Num(number(value))),
        "t" => Ok(Cell::Text(text(alloc, value)?)),
        "b" => Ok(Cell::Blob(bytes(alloc, value)?)),
        "r" => Ok(Cell::Ref(token(value))),
        "noguid" => Ok(Cell::NoGuid),
        _ => Ok(Cell::NoRef),
    }
}

/// The cells of the words of a part from a place on.
pub fn cells(alloc: Global, part: &str, first: usize) -> Result<List<Cell>, NoMemory> {
    let mut cells = List::new(alloc);
    for word in part.split(' ').skip(first) {
        cells.push(cell(alloc, word)?)?;
    }
    Ok(cells)
}
