//! Cells and signatures, each one word: a number `n/NUMBER`, a text `t/HEX`, a blob `b/HEX`, a GUID `g/HEX`, a token
//! `r/TOKEN`, `noguid`, `noref`; a signature in hex, or `nosig`.

use crate::text::{add_hex, add_number, add_text, add_token};
use cil_base::{Bytes, NoMemory};
use node_model::{Cell, OptSig};
use sig_text::spell_sig;
use sig_tree::Sig;

/// Adds a cell.
pub fn add_cell(text: &mut Bytes, cell: &Cell) -> Result<(), NoMemory> {
    match cell {
        Cell::Num(number) => {
            text.extend(b"n/")?;
            add_number(text, *number)
        }
        Cell::Text(bytes) => add_text(text, bytes.as_slice()),
        Cell::Guid(bytes) => {
            text.extend(b"g/")?;
            add_hex(text, bytes)
        }
        Cell::NoGuid => text.extend(b"noguid"),
        Cell::Blob(bytes) => {
            text.extend(b"b/")?;
            add_hex(text, bytes.as_slice())
        }
        Cell::Ref(token) => {
            text.extend(b"r/")?;
            add_token(text, *token)
        }
        Cell::NoRef => text.extend(b"noref"),
    }
}

/// Adds a space and a cell for each.
pub fn add_cells(text: &mut Bytes, cells: &[Cell]) -> Result<(), NoMemory> {
    for cell in cells {
        text.push(b' ')?;
        add_cell(text, cell)?;
    }
    Ok(())
}

/// Adds a signature, in its shortest form.
pub fn add_sig(text: &mut Bytes, sig: &Sig) -> Result<(), NoMemory> {
    let bytes = spell_sig(text.allocator(), sig)?;
    add_hex(text, bytes.as_slice())
}

/// Adds a signature, or what says that there is none.
pub fn add_opt_sig(text: &mut Bytes, sig: &OptSig) -> Result<(), NoMemory> {
    match sig {
        OptSig::Is(sig) => add_sig(text, sig),
        OptSig::None => text.extend(b"nosig"),
    }
}
