//! Edits in words: `set TOKEN COLUMN CELL`, `setsig TOKEN SIG`, `nobody TOKEN`, `ilnew TOKEN` with the stack of the empty
//! body, `setdata TOKEN HEX`, `setresource TOKEN HEX`, `entry TOKEN`, `add TABLE SIG CELL..`,
//! `insert OWNER TABLE AT SIG CELL..`, `remove OWNER TOKEN`, `ilinsert TOKEN AT INSTR`, `ilreplace TOKEN AT INSTR`,
//! `ilremove TOKEN AT`, `ilhead TOKEN STACK INIT LOCALS`, `iltry TOKEN HANDLER`, `iluntry TOKEN AT`. TABLE is in hex.

use crate::cell::{add_cell, add_cells, add_opt_sig, add_sig};
use crate::instr::{add_handler, add_instr};
use crate::text::{add_hex, add_next, add_token};
use cil_base::{Bytes, NoMemory, Token};
use node_model::{BodyValue, Cell, Edit, OptSig, ResourceValue};

/// Adds a word and a token.
fn add_of(text: &mut Bytes, word: &[u8], token: Token) -> Result<(), NoMemory> {
    text.extend(word)?;
    add_token(text, token)
}

/// Adds a word, a token and bytes.
fn add_bytes(text: &mut Bytes, word: &[u8], token: Token, bytes: &Bytes) -> Result<(), NoMemory> {
    add_of(text, word, token)?;
    text.push(b' ')?;
    add_hex(text, bytes.as_slice())
}

/// Adds a body that is set.
fn add_body(text: &mut Bytes, token: Token, body: &BodyValue) -> Result<(), NoMemory> {
    match body {
        BodyValue::NoBody => add_of(text, b"nobody ", token),
        BodyValue::Native(rva) => {
            add_of(text, b"native ", token)?;
            add_next(text, *rva as u64)
        }
        BodyValue::Il(body) => {
            add_of(text, b"ilnew ", token)?;
            add_next(text, body.max_stack as u64)?;
            add_next(text, body.code.len() as u64)
        }
    }
}

/// Adds a resource that is set.
fn add_resource(text: &mut Bytes, token: Token, value: &ResourceValue) -> Result<(), NoMemory> {
    match value {
        ResourceValue::Here(bytes) => add_bytes(text, b"setresource ", token, bytes),
        ResourceValue::Elsewhere(offset) => {
            add_of(text, b"elsewhere ", token)?;
            add_next(text, *offset as u64)
        }
    }
}

/// Adds the signature and the cells of a new row.
fn add_row(text: &mut Bytes, cells: &[Cell], sig: &OptSig) -> Result<(), NoMemory> {
    text.push(b' ')?;
    add_opt_sig(text, sig)?;
    add_cells(text, cells)
}

/// Adds an edit of a method's code.
fn add_code(text: &mut Bytes, edit: &Edit) -> Result<(), NoMemory> {
    match edit {
        Edit::IlInsert { token, at, instr } => {
            add_of(text, b"ilinsert ", *token)?;
            add_next(text, *at as u64)?;
            text.push(b' ')?;
            add_instr(text, instr)
        }
        Edit::IlReplace { token, at, instr } => {
            add_of(text, b"ilreplace ", *token)?;
            add_next(text, *at as u64)?;
            text.push(b' ')?;
            add_instr(text, instr)
        }
        Edit::IlRemove { token, at } => {
            add_of(text, b"ilremove ", *token)?;
            add_next(text, *at as u64)
        }
        Edit::IlHead {
            token,
            max_stack,
            init_locals,
            locals,
        } => {
            add_of(text, b"ilhead ", *token)?;
            add_next(text, *max_stack as u64)?;
            add_next(text, *init_locals as u64)?;
            add_of(text, b" ", *locals)
        }
        Edit::AddHandler { token, handler } => {
            add_of(text, b"iltry ", *token)?;
            text.push(b' ')?;
            add_handler(text, handler)
        }
        Edit::RemoveHandler { token, at } => {
            add_of(text, b"iluntry ", *token)?;
            add_next(text, *at as u64)
        }
        _ => Ok(()),
    }
}

/// Adds an edit.
pub fn add_edit(text: &mut Bytes, edit: &Edit) -> Result<(), NoMemory> {
    match edit {
        Edit::Set {
            token,
            column,
            cell,
        } => {
            add_of(text, b"set ", *token)?;
            add_next(text, *column as u64)?;
            text.push(b' ')?;
            add_cell(text, cell)
        }
        Edit::SetSig { token, sig } => {
            add_of(text, b"setsig ", *token)?;
            text.push(b' ')?;
            add_sig(text, sig)
        }
        Edit::SetBody { token, body } => add_body(text, *token, body),
        Edit::SetData { token, bytes } => add_bytes(text, b"setdata ", *token, bytes),
        Edit::SetResource { token, value } => add_resource(text, *token, value),
        Edit::SetEntry { token } => add_of(text, b"entry ", *token),
        Edit::Add { table, cells, sig } => {
            text.extend(b"add ")?;
            add_hex(text, &[*table])?;
            add_row(text, cells.as_slice(), sig)
        }
        Edit::Insert {
            owner,
            table,
            at,
            cells,
            sig,
        } => {
            add_of(text, b"insert ", *owner)?;
            text.push(b' ')?;
            add_hex(text, &[*table])?;
            add_next(text, *at as u64)?;
            add_row(text, cells.as_slice(), sig)
        }
        Edit::Remove { owner, token } => {
            add_of(text, b"remove ", *owner)?;
            add_of(text, b" ", *token)
        }
        _ => add_code(text, edit),
    }
}
