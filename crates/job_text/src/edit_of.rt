//! The edits of commands, of what their arguments say.

ghost use Rattle.std.specs.Prelude.{◌≡◌};
ghost use Rattle.job_text.specs.Commands.{edit_of, empty_body, sig_edit};
ghost use Rattle.node_model.specs.declared.edit.Edit.TheVariants as edits;
ghost use Rattle.node_model.specs.declared.value.BodyValue.TheVariants as bodies;
ghost use Rattle.node_model.specs.declared.value.ResourceValue.TheVariants as resources;

use crate::args::Args;
use crate::word::Change;
use cil_base::{List, Token};
use il_code::{Body, Instr};
use node_model::{BodyValue, Edit, OptSig, ResourceValue};
use std::alloc::Global;

/// The stack of a body with a tiny header (ECMA-335 II.25.4.2).
const TINY_STACK: u16 = 8;

/// A cell that is set.
fn set(args: Args) -> Edit
    ensures { result ≡ edits.Set args.token args.column args.cell }
{
    let Args {
        token,
        column,
        cell,
        ..
    } = args;
    Edit::Set {
        token,
        column,
        cell,
    }
}

/// A signature that is set.
fn set_sig(args: Args) -> Option<Edit>
    ensures { result ≡ sig_edit args args.sig }
{
    let Args { token, sig, .. } = args;
    match sig {
        OptSig::Is(sig) => Some(Edit::SetSig { token, sig }),
        OptSig::None => None,
    }
}

/// A body without instructions that is set.
fn set_empty_body(alloc: Global, token: Token) -> Edit
    ensures { result ≡ edits.SetBody token (bodies.Il empty_body) }
{
    let body = Body {
        max_stack: TINY_STACK,
        init_locals: false,
        locals: Token::ROOT,
        code: List::new(alloc),
        handlers: List::new(alloc),
    };
    Edit::SetBody {
        token,
        body: BodyValue::Il(body),
    }
}

/// A body that is taken away.
fn set_no_body(token: Token) -> Edit
    ensures { result ≡ edits.SetBody token bodies.NoBody }
{
    Edit::SetBody {
        token,
        body: BodyValue::NoBody,
    }
}

/// Data that are set.
fn set_data(args: Args) -> Edit
    ensures { result ≡ edits.SetData args.token args.bytes }
{
    let Args { token, bytes, .. } = args;
    Edit::SetData { token, bytes }
}

/// A resource that is set.
fn set_resource(args: Args) -> Edit
    ensures { result ≡ edits.SetResource args.token (resources.Here args.bytes) }
{
    let Args { token, bytes, .. } = args;
    Edit::SetResource {
        token,
        value: ResourceValue::Here(bytes),
    }
}

/// A row that is added.
fn add(args: Args) -> Edit
    ensures { result ≡ edits.Add args.table args.cells args.sig }
{
    let Args {
        table,
        cells,
        sig,
        ..
    } = args;
    Edit::Add { table, cells, sig }
}

/// A row that is put into its owner's list.
fn insert(args: Args) -> Edit
    ensures { result ≡ edits.Insert args.token args.table args.at args.cells args.sig }
{
    let Args {
        token,
        table,
        at,
        cells,
        sig,
        ..
    } = args;
    Edit::Insert {
        owner: token,
        table,
        at,
        cells,
        sig,
    }
}

/// An instruction that is put in.
fn il_insert(args: Args) -> Edit
    ensures { result ≡ edits.IlInsert args.token args.at (record { op = args.code; operand = args.operand }) }
{
    let Args {
        token,
        at,
        code,
        operand,
        ..
    } = args;
    Edit::IlInsert {
        token,
        at,
        instr: Instr { op: code, operand },
    }
}

/// An instruction in place of another.
fn il_replace(args: Args) -> Edit
    ensures { result ≡ edits.IlReplace args.token args.at (record { op = args.code; operand = args.operand }) }
{
    let Args {
        token,
        at,
        code,
        operand,
        ..
    } = args;
    Edit::IlReplace {
        token,
        at,
        instr: Instr { op: code, operand },
    }
}

/// A row that is removed.
fn remove(args: &Args) -> Edit
    ensures { result ≡ edits.Remove args.now.other args.now.token }
{
    Edit::Remove {
        owner: args.other,
        token: args.token,
    }
}

/// An instruction that is taken out.
fn il_remove(args: &Args) -> Edit
    ensures { result ≡ edits.IlRemove args.now.token args.now.at }
{
    Edit::IlRemove {
        token: args.token,
        at: args.at,
    }
}

/// What the header of a body says.
fn il_head(args: &Args) -> Edit
    ensures { result ≡ edits.IlHead args.now.token args.now.max_stack args.now.init_locals args.now.other }
{
    Edit::IlHead {
        token: args.token,
        max_stack: args.max_stack,
        init_locals: args.init_locals,
        locals: args.other,
    }
}

/// A handler that is added.
fn add_handler(args: &Args) -> Edit
    ensures { result ≡ edits.AddHandler args.now.token args.now.handler }
{
    Edit::AddHandler {
        token: args.token,
        handler: args.handler,
    }
}

/// A handler that is taken out.
fn remove_handler(args: &Args) -> Edit
    ensures { result ≡ edits.RemoveHandler args.now.token args.now.at }
{
    Edit::RemoveHandler {
        token: args.token,
        at: args.at,
    }
}

/// The edit that a command does with these arguments. None where it sets a signature and none was read.
#[tactic(auto, unfolding(crate::specs::Commands::edit_of))]
pub(crate) fn edit_of(alloc: Global, change: Change, args: Args) -> Option<Edit>
    ensures { result ≡ edit_of change args }
{
    match change {
        Change::Set => Some(set(args)),
        Change::SetSig => set_sig(args),
        Change::IlNew => Some(set_empty_body(alloc, args.token)),
        Change::IlDrop => Some(set_no_body(args.token)),
        Change::SetData => Some(set_data(args)),
        Change::SetResource => Some(set_resource(args)),
        Change::SetEntry => Some(Edit::SetEntry { token: args.token }),
        Change::Add => Some(add(args)),
        Change::Insert => Some(insert(args)),
        Change::Remove => Some(remove(&args)),
        Change::IlInsert => Some(il_insert(args)),
        Change::IlReplace => Some(il_replace(args)),
        Change::IlRemove => Some(il_remove(&args)),
        Change::IlHead => Some(il_head(&args)),
        Change::AddHandler => Some(add_handler(&args)),
        Change::RemoveHandler => Some(remove_handler(&args)),
    }
}
