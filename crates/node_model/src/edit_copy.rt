ghost use Rattle.std.specs.Prelude.{◌≡◌, IfOk};
ghost use Rattle.node_model.specs.declared.edit.Edit.TheVariants as edits;

use crate::cell::Cell;
use crate::edit::{Edit, OptSig};
use crate::value::{BodyValue, ResourceValue, copy_cells};
use cil_base::{Bytes, List, NoMemory, Token};
use il_code::{Handler, Instr};
use sig_tree::Sig;
use std::alloc::Global;

/// A cell to be set, of its own.
fn copy_set(alloc: Global, token: Token, column: u8, cell: &Cell) -> Result<Edit, NoMemory>
    ensures { IfOk result (λ copy. copy ≡ edits.Set token column cell.now) }
{
    let cell = cell.copy(alloc)?;
    Ok(Edit::Set {
        token,
        column,
        cell,
    })
}

/// A signature to be set, of its own.
fn copy_set_sig(alloc: Global, token: Token, sig: &Sig) -> Result<Edit, NoMemory>
    ensures { IfOk result (λ copy. copy ≡ edits.SetSig token sig.now) }
{
    let sig = sig.copy(alloc)?;
    Ok(Edit::SetSig { token, sig })
}

/// A body to be set, of its own.
fn copy_set_body(alloc: Global, token: Token, body: &BodyValue) -> Result<Edit, NoMemory>
    ensures { IfOk result (λ copy. copy ≡ edits.SetBody token body.now) }
{
    let body = body.copy(alloc)?;
    Ok(Edit::SetBody { token, body })
}

/// Data to be set, of their own.
fn copy_set_data(token: Token, bytes: &Bytes) -> Result<Edit, NoMemory>
    ensures { IfOk result (λ copy. copy ≡ edits.SetData token bytes.now) }
{
    let bytes = bytes.copy()?;
    Ok(Edit::SetData { token, bytes })
}

/// A resource to be set, of its own.
fn copy_set_resource(alloc: Global, token: Token, value: &ResourceValue) -> Result<Edit, NoMemory>
    ensures { IfOk result (λ copy. copy ≡ edits.SetResource token value.now) }
{
    let value = value.copy(alloc)?;
    Ok(Edit::SetResource { token, value })
}

/// A new row, of its own.
fn copy_add(alloc: Global, table: u8, cells: &List<Cell>, sig: &OptSig) -> Result<Edit, NoMemory>
    ensures { IfOk result (λ copy. copy ≡ edits.Add table cells.now sig.now) }
{
    let cells = copy_cells(alloc, cells)?;
    let sig = sig.copy(alloc)?;
    Ok(Edit::Add { table, cells, sig })
}

/// A new row with its place, of its own.
fn copy_insert(
    alloc: Global,
    owner: Token,
    table: u8,
    at: u32,
    cells: &List<Cell>,
    sig: &OptSig,
) -> Result<Edit, NoMemory>
    ensures { IfOk result (λ copy. copy ≡ edits.Insert owner table at cells.now sig.now) }
{
    let cells = copy_cells(alloc, cells)?;
    let sig = sig.copy(alloc)?;
    Ok(Edit::Insert {
        owner,
        table,
        at,
        cells,
        sig,
    })
}

/// An instruction to be put in, of its own.
fn copy_il_insert(token: Token, at: u32, instr: &Instr) -> Result<Edit, NoMemory>
    ensures { IfOk result (λ copy. copy ≡ edits.IlInsert token at instr.now) }
{
    let instr = instr.copy()?;
    Ok(Edit::IlInsert { token, at, instr })
}

/// An instruction in place of another, of its own.
fn copy_il_replace(token: Token, at: u32, instr: &Instr) -> Result<Edit, NoMemory>
    ensures { IfOk result (λ copy. copy ≡ edits.IlReplace token at instr.now) }
{
    let instr = instr.copy()?;
    Ok(Edit::IlReplace { token, at, instr })
}

/// A row that is removed, as an edit.
fn removal(owner: Token, token: Token) -> Edit
    ensures { result ≡ edits.Remove owner token }
{
    Edit::Remove { owner, token }
}

/// An instruction that is taken out, as an edit.
fn il_removal(token: Token, at: u32) -> Edit
    ensures { result ≡ edits.IlRemove token at }
{
    Edit::IlRemove { token, at }
}

/// A handler that is added, as an edit.
fn handler_added(token: Token, handler: Handler) -> Edit
    ensures { result ≡ edits.AddHandler token handler }
{
    Edit::AddHandler { token, handler }
}

/// A handler that is taken out, as an edit.
fn handler_removal(token: Token, at: u32) -> Edit
    ensures { result ≡ edits.RemoveHandler token at }
{
    Edit::RemoveHandler { token, at }
}

/// What a body's header says, as an edit.
fn il_head(token: Token, max_stack: u16, init_locals: bool, locals: Token) -> Edit
    ensures { result ≡ edits.IlHead token max_stack init_locals locals }
{
    Edit::IlHead {
        token,
        max_stack,
        init_locals,
        locals,
    }
}

impl Edit {
    /// An equal edit of its own.
    pub fn copy(&self, alloc: Global) -> Result<Edit, NoMemory>
        ensures { IfOk result (λ copy. copy ≡ self.now) }
    {
        match self {
            Edit::Set {
                token,
                column,
                cell,
            } => copy_set(alloc, *token, *column, cell),
            Edit::SetSig { token, sig } => copy_set_sig(alloc, *token, sig),
            Edit::SetBody { token, body } => copy_set_body(alloc, *token, body),
            Edit::SetData { token, bytes } => copy_set_data(*token, bytes),
            Edit::SetResource { token, value } => copy_set_resource(alloc, *token, value),
            Edit::SetEntry { token } => Ok(Edit::SetEntry { token: *token }),
            Edit::Add { table, cells, sig } => copy_add(alloc, *table, cells, sig),
            Edit::Insert {
                owner,
                table,
                at,
                cells,
                sig,
            } => copy_insert(alloc, *owner, *table, *at, cells, sig),
            Edit::Remove { owner, token } => Ok(removal(*owner, *token)),
            Edit::IlInsert { token, at, instr } => copy_il_insert(*token, *at, instr),
            Edit::IlRemove { token, at } => Ok(il_removal(*token, *at)),
            Edit::IlReplace { token, at, instr } => copy_il_replace(*token, *at, instr),
            Edit::IlHead {
                token,
                max_stack,
                init_locals,
                locals,
            } => Ok(il_head(*token, *max_stack, *init_locals, *locals)),
            Edit::AddHandler { token, handler } => Ok(handler_added(*token, *handler)),
            Edit::RemoveHandler { token, at } => Ok(handler_removal(*token, *at)),
        }
    }
}

/// Equal edits of their own.
pub fn copy_edits(alloc: Global, edits: &List<Edit>) -> Result<List<Edit>, NoMemory>
    ensures { IfOk result (λ copy. copy ≡ edits.now) }
{
    let mut all = List::new(alloc);
    for edit in edits.as_slice() {
        all.push(edit.copy(alloc)?)?;
    }
    Ok(all)
}
