//! Edits, by the words behind `edit`:
//!
//! | words | edit |
//! |---|---|
//! | `set TOKEN COLUMN CELL` | the cell in the column of this number |
//! | `setsig TOKEN SIG`, `setdata TOKEN HEX`, `entry TOKEN` | the signature, the data, the entry point |
//! | `setresource TOKEN HEX`, `elsewhere TOKEN OFFSET` | the bytes of a resource, or its place elsewhere |
//! | `nobody TOKEN`, `ilnew TOKEN`, `native TOKEN RVA` | no body, an empty one, or native code |
//! | `ilbody TOKEN STACK LOCALS INSTR.. ; HANDLER..` | a body with code; the `;` stands only before handlers |
//! | `add TABLE SIG CELL..`, `insert OWNER TABLE AT SIG CELL..`, `remove OWNER TOKEN` | a row; TABLE is in hex |
//! | `ilinsert TOKEN AT INSTR`, `ilreplace TOKEN AT INSTR`, `ilremove TOKEN AT` | an instruction |
//! | `ilhead TOKEN STACK INIT LOCALS` | the numbers of the header, INIT being 0 or 1 |
//! | `iltry TOKEN HANDLER`, `iluntry TOKEN AT` | a handler |

use crate::body::{body, empty_body};
use crate::cell::{cell, cells, opt_sig, sig};
use crate::instr::{handler, instr};
use crate::words::{bytes, number, small_number, table, token, word};
use cil_base::{List, NoMemory, Token};
use node_model::{BodyValue, Edit, ResourceValue};
use std::alloc::Global;

/// A body that is set.
fn set_body(token: Token, body: BodyValue) -> Result<Option<Edit>, NoMemory> {
    Ok(Some(Edit::SetBody { token, body }))
}

/// A body with code that is set; none where it has more than a case may have.
fn set_code(alloc: Global, token: Token, line: &str) -> Result<Option<Edit>, NoMemory> {
    match body(alloc, line)? {
        Some(body) => set_body(token, BodyValue::Il(body)),
        None => Ok(None),
    }
}

/// A resource that is set.
fn set_resource(token: Token, value: ResourceValue) -> Result<Option<Edit>, NoMemory> {
    Ok(Some(Edit::SetResource { token, value }))
}

/// A cell that is set.
fn set_cell(alloc: Global, token: Token, line: &str) -> Result<Option<Edit>, NoMemory> {
    let column = word(line, 4).parse::<u8>().unwrap_or(255);
    let cell = cell(alloc, word(line, 5))?;
    Ok(Some(Edit::Set {
        token,
        column,
        cell,
    }))
}

/// A signature that is set; none where the word is none.
fn set_sig(alloc: Global, token: Token, line: &str) -> Result<Option<Edit>, NoMemory> {
    match sig(alloc, token.table, word(line, 4))? {
        Some(sig) => Ok(Some(Edit::SetSig { token, sig })),
        None => Ok(None),
    }
}

/// What is set of a row: a cell, or what another key of it holds.
fn set(alloc: Global, line: &str) -> Result<Option<Edit>, NoMemory> {
    let token = token(word(line, 3));
    let value = word(line, 4);
    match word(line, 2) {
        "set" => set_cell(alloc, token, line),
        "setsig" => set_sig(alloc, token, line),
        "setdata" => {
            let bytes = bytes(alloc, value)?;
            Ok(Some(Edit::SetData { token, bytes }))
        }
        "setresource" => set_resource(token, ResourceValue::Here(bytes(alloc, value)?)),
        "elsewhere" => set_resource(token, ResourceValue::Elsewhere(number(value))),
        "nobody" => set_body(token, BodyValue::NoBody),
        "ilnew" => set_body(token, BodyValue::Il(empty_body(alloc))),
        "ilbody" => set_code(alloc, token, line),
        "native" => set_body(token, BodyValue::Native(number(value))),
        "entry" => Ok(Some(Edit::SetEntry { token })),
        _ => code(alloc, token, line),
    }
}

/// An edit of a method's code.
fn code(alloc: Global, token: Token, line: &str) -> Result<Option<Edit>, NoMemory> {
    let at = number(word(line, 4));
    match word(line, 2) {
        "ilinsert" => {
            let instr = instr(alloc, word(line, 5))?;
            Ok(Some(Edit::IlInsert { token, at, instr }))
        }
        "ilreplace" => {
            let instr = instr(alloc, word(line, 5))?;
            Ok(Some(Edit::IlReplace { token, at, instr }))
        }
        "ilremove" => Ok(Some(Edit::IlRemove { token, at })),
        "ilhead" => Ok(Some(head(token, line))),
        "iltry" => Ok(Some(Edit::AddHandler {
            token,
            handler: handler(word(line, 4)),
        })),
        "iluntry" => Ok(Some(Edit::RemoveHandler { token, at })),
        _ => Ok(None),
    }
}

/// The numbers of a body's header.
fn head(token: Token, line: &str) -> Edit {
    Edit::IlHead {
        token,
        max_stack: small_number(word(line, 4)),
        init_locals: word(line, 5) == "1",
        locals: crate::words::token(word(line, 6)),
    }
}

/// A new row, last in its lists.
fn add(alloc: Global, line: &str) -> Result<Option<Edit>, NoMemory> {
    let table = table(word(line, 3));
    let sig = opt_sig(alloc, table, word(line, 4))?;
    let cells = cells(alloc, line, 5)?;
    Ok(Some(Edit::Add { table, cells, sig }))
}

/// A new row at a place of its owner's list.
fn insert(alloc: Global, line: &str) -> Result<Option<Edit>, NoMemory> {
    let owner = token(word(line, 3));
    let table = table(word(line, 4));
    let at = number(word(line, 5));
    let sig = opt_sig(alloc, table, word(line, 6))?;
    let cells = cells(alloc, line, 7)?;
    Ok(Some(Edit::Insert {
        owner,
        table,
        at,
        cells,
        sig,
    }))
}

/// The edit of a line, alone; none where it is none. As a list it is let go at once, whatever it holds.
pub fn edits(alloc: Global, line: &str) -> Result<List<Edit>, NoMemory> {
    let mut edits = List::new(alloc);
    if let Some(edit) = edit(alloc, line)? {
        edits.push(edit)?;
    }
    Ok(edits)
}

/// The edit of a line.
fn edit(alloc: Global, line: &str) -> Result<Option<Edit>, NoMemory> {
    match word(line, 2) {
        "add" => add(alloc, line),
        "insert" => insert(alloc, line),
        "remove" => Ok(Some(Edit::Remove {
            owner: token(word(line, 3)),
            token: token(word(line, 4)),
        })),
        _ => set(alloc, line),
    }
}
