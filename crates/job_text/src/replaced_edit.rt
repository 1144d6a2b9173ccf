//! Changes and commands in which each back reference is replaced by the token that it stands for.

ghost use Rattle.std.specs.Prelude.{◌≡◌, IfOk, map};
ghost use Rattle.job_text.specs.References.{replaced_command, replaced_cell, replaced_edit, replaced_handler, replaced_instr, replaced_query, replaced_token};
ghost use Rattle.job_text.specs.declared.command.Command.TheVariants as commands;
ghost use Rattle.node_model.specs.declared.edit.Edit.TheVariants as edits;

use crate::command::Command;
use crate::reference::{
    replace_in_cell, replace_in_cells, replace_in_handler, replace_in_instr, replace_token,
};
use crate::replaced_query::replace_in_query;
use cil_base::{Bytes, List, NoMemory, Token};
use il_code::{Handler, Instr};
use node_model::{BodyValue, Cell, Edit, OptSig, Query, ResourceValue};
use sig_tree::Sig;
use std::alloc::Global;

/// A cell to be set, with no back reference left.
fn set(
    alloc: Global,
    made: &[Option<Token>],
    token: Token,
    column: u8,
    cell: &Cell,
) -> Result<Edit, NoMemory>
    ensures { IfOk result (λ own. own ≡ edits.Set (replaced_token made.now token) column (replaced_cell made.now cell.now)) }
{
    let cell = replace_in_cell(alloc, made, cell)?;
    Ok(Edit::Set {
        token: replace_token(made, token),
        column,
        cell,
    })
}

/// A signature to be set, of its own.
fn set_sig(alloc: Global, token: Token, sig: &Sig) -> Result<Edit, NoMemory>
    ensures { IfOk result (λ own. own ≡ edits.SetSig token sig.now) }
{
    let sig = sig.copy(alloc)?;
    Ok(Edit::SetSig { token, sig })
}

/// A body to be set, of its own.
fn set_body(alloc: Global, token: Token, body: &BodyValue) -> Result<Edit, NoMemory>
    ensures { IfOk result (λ own. own ≡ edits.SetBody token body.now) }
{
    let body = body.copy(alloc)?;
    Ok(Edit::SetBody { token, body })
}

/// Data to be set, of their own.
fn set_data(token: Token, bytes: &Bytes) -> Result<Edit, NoMemory>
    ensures { IfOk result (λ own. own ≡ edits.SetData token bytes.now) }
{
    let bytes = bytes.copy()?;
    Ok(Edit::SetData { token, bytes })
}

/// A resource to be set, of its own.
fn set_resource(alloc: Global, token: Token, value: &ResourceValue) -> Result<Edit, NoMemory>
    ensures { IfOk result (λ own. own ≡ edits.SetResource token value.now) }
{
    let value = value.copy(alloc)?;
    Ok(Edit::SetResource { token, value })
}

/// A new row, with no back reference left.
fn add(
    alloc: Global,
    made: &[Option<Token>],
    table: u8,
    cells: &List<Cell>,
    sig: &OptSig,
) -> Result<Edit, NoMemory>
    ensures { IfOk result (λ own. own ≡ edits.Add table (map (replaced_cell made.now) cells.now) sig.now) }
{
    let cells = replace_in_cells(alloc, made, cells)?;
    let sig = sig.copy(alloc)?;
    Ok(Edit::Add { table, cells, sig })
}

/// A new row with its place, with no back reference left in its cells.
fn insert(
    alloc: Global,
    made: &[Option<Token>],
    owner: Token,
    table: u8,
    at: u32,
    cells: &List<Cell>,
    sig: &OptSig,
) -> Result<Edit, NoMemory>
    ensures { IfOk result (λ own. own ≡ edits.Insert owner table at (map (replaced_cell made.now) cells.now) sig.now) }
{
    let cells = replace_in_cells(alloc, made, cells)?;
    let sig = sig.copy(alloc)?;
    Ok(Edit::Insert {
        owner,
        table,
        at,
        cells,
        sig,
    })
}

/// A row that is removed, as an edit.
fn removal(owner: Token, token: Token) -> Edit
    ensures { result ≡ edits.Remove owner token }
{
    Edit::Remove { owner, token }
}

/// An instruction to be put in, with no back reference left.
fn il_insert(made: &[Option<Token>], token: Token, at: u32, instr: &Instr) -> Result<Edit, NoMemory>
    ensures { IfOk result (λ own. own ≡ edits.IlInsert (replaced_token made.now token) at (replaced_instr made.now instr.now)) }
{
    let instr = replace_in_instr(made, instr)?;
    Ok(Edit::IlInsert {
        token: replace_token(made, token),
        at,
        instr,
    })
}

/// An instruction in place of another, with no back reference left.
fn il_replace(
    made: &[Option<Token>],
    token: Token,
    at: u32,
    instr: &Instr,
) -> Result<Edit, NoMemory>
    ensures { IfOk result (λ own. own ≡ edits.IlReplace (replaced_token made.now token) at (replaced_instr made.now instr.now)) }
{
    let instr = replace_in_instr(made, instr)?;
    Ok(Edit::IlReplace {
        token: replace_token(made, token),
        at,
        instr,
    })
}

/// An instruction that is taken out, as an edit.
fn il_removal(token: Token, at: u32) -> Edit
    ensures { result ≡ edits.IlRemove token at }
{
    Edit::IlRemove { token, at }
}

/// What a body's header says, as an edit.
fn il_head(token: Token, max_stack: u16, init_locals: bool, locals: Token) -> Edit
    ensures { result ≡ edits.IlHead token max_stack init_locals locals }
{
    Edit::IlHead {
        token,
        max_stack,
        init_locals,
        locals,
    }
}

/// A handler that is added, with no back reference left.
fn added_handler(made: &[Option<Token>], token: Token, handler: &Handler) -> Edit
    ensures { result ≡ edits.AddHandler (replaced_token made.now token) (replaced_handler made.now handler.now) }
{
    Edit::AddHandler {
        token: replace_token(made, token),
        handler: replace_in_handler(made, handler),
    }
}

/// A handler that is taken out, as an edit.
fn handler_removal(token: Token, at: u32) -> Edit
    ensures { result ≡ edits.RemoveHandler token at }
{
    Edit::RemoveHandler { token, at }
}

/// A change in which no back reference is left, of its own. `made` has, of each command of the actor up to now, the
/// token of the row that it made, if it made one.
#[tactic(auto, unfolding(crate::specs::References::replaced_edit))]
pub fn replace_in_edit(alloc: Global, made: &[Option<Token>], edit: &Edit) -> Result<Edit, NoMemory>
    ensures { IfOk result (λ own. own ≡ replaced_edit made.now edit.now) }
{
    match edit {
        Edit::Set {
            token,
            column,
            cell,
        } => set(alloc, made, *token, *column, cell),
        Edit::SetSig { token, sig } => set_sig(alloc, replace_token(made, *token), sig),
        Edit::SetBody { token, body } => set_body(alloc, replace_token(made, *token), body),
        Edit::SetData { token, bytes } => set_data(replace_token(made, *token), bytes),
        Edit::SetResource { token, value } => {
            set_resource(alloc, replace_token(made, *token), value)
        }
        Edit::SetEntry { token } => Ok(Edit::SetEntry {
            token: replace_token(made, *token),
        }),
        Edit::Add { table, cells, sig } => add(alloc, made, *table, cells, sig),
        Edit::Insert {
            owner,
            table,
            at,
            cells,
            sig,
        } => insert(
            alloc,
            made,
            replace_token(made, *owner),
            *table,
            *at,
            cells,
            sig,
        ),
        Edit::Remove { owner, token } => {
            Ok(removal(replace_token(made, *owner), replace_token(made, *token)))
        }
        Edit::IlInsert { token, at, instr } => il_insert(made, *token, *at, instr),
        Edit::IlRemove { token, at } => Ok(il_removal(replace_token(made, *token), *at)),
        Edit::IlReplace { token, at, instr } => il_replace(made, *token, *at, instr),
        Edit::IlHead {
            token,
            max_stack,
            init_locals,
            locals,
        } => Ok(il_head(
            replace_token(made, *token),
            *max_stack,
            *init_locals,
            replace_token(made, *locals),
        )),
        Edit::AddHandler { token, handler } => Ok(added_handler(made, *token, handler)),
        Edit::RemoveHandler { token, at } => Ok(handler_removal(replace_token(made, *token), *at)),
    }
}

/// A question to a module in which no back reference is left.
fn query_command(made: &[Option<Token>], home: u32, query: &Query) -> Result<Command, NoMemory>
    ensures { IfOk result (λ own. own ≡ commands.Query home (replaced_query made.now query.now)) }
{
    let query = replace_in_query(made, query)?;
    Ok(Command::Query {
        module: home,
        query,
    })
}

/// A change of a module in which no back reference is left.
fn edit_command(
    alloc: Global,
    made: &[Option<Token>],
    home: u32,
    edit: &Edit,
) -> Result<Command, NoMemory>
    ensures { IfOk result (λ own. own ≡ commands.Edit home (replaced_edit made.now edit.now)) }
{
    let edit = replace_in_edit(alloc, made, edit)?;
    Ok(Command::Edit { module: home, edit })
}

/// A command in which no back reference is left, of its own. `made` has, of each command of the actor up to now, the
/// token of the row that it made, if it made one.
#[tactic(auto, unfolding(crate::specs::References::replaced_command))]
pub fn replace_references(
    alloc: Global,
    made: &[Option<Token>],
    command: &Command,
) -> Result<Command, NoMemory>
    ensures { IfOk result (λ own. own ≡ replaced_command made.now command.now) }
{
    match command {
        Command::Query { module, query } => query_command(made, *module, query),
        Command::Edit { module, edit } => edit_command(alloc, made, *module, edit),
        Command::Resolve { module, token } => Ok(Command::Resolve {
            module: *module,
            token: replace_token(made, *token),
        }),
        Command::Attribute { module, token } => Ok(Command::Attribute {
            module: *module,
            token: replace_token(made, *token),
        }),
    }
}
