//! The arguments of a command, one after the other, each by its kind.

ghost use Rattle.std.specs.Prelude.{◌≡◌, IfOk, map};
ghost use Rattle.job_text.specs.Args.{if_fits, with_argument, with_arguments};
ghost use Rattle.serde_json.specs.View.{view};

use crate::args::Args;
use crate::argument::{
    read_at, read_code, read_column, read_init_locals, read_link, read_locals, read_max_stack,
    read_member_table, read_module, read_owner, read_table, read_token,
};
use crate::command::Command;
use crate::form::ArgumentKind;
use crate::handler_argument::{
    read_handler_end, read_handler_kind, read_handler_start, read_handler_with, read_try_end,
    read_try_start,
};
use crate::own_argument::{
    read_bytes, read_cell, read_cells, read_name, read_namespace, read_operand, read_sig,
    read_sig_or_null, read_text,
};
use cil_base::NoMemory;
use serde_json::Value;
use std::alloc::Global;

/// Reads one more argument, and answers whether the value is of its kind. There are so many modules, and the actor has
/// the commands before.
#[tactic(auto, unfolding(crate::specs::Args::with_argument))]
fn read_argument(
    alloc: Global,
    modules: u32,
    before: &[Command],
    kind: ArgumentKind,
    args: &mut Args,
    value: &Value,
) -> Result<bool, NoMemory>
    ensures { IfOk result (λ fits. if_fits fits args.new ≡ with_argument modules before.now kind args.old (view value.now)) }
{
    match kind {
        ArgumentKind::Module => Ok(read_module(modules, args, value)),
        ArgumentKind::Token => Ok(read_token(before, args, value)),
        ArgumentKind::Owner => Ok(read_owner(before, args, value)),
        ArgumentKind::Locals => Ok(read_locals(before, args, value)),
        ArgumentKind::Table => Ok(read_table(args, value)),
        ArgumentKind::MemberTable => Ok(read_member_table(args, value)),
        ArgumentKind::Link => Ok(read_link(args, value)),
        ArgumentKind::Column => Ok(read_column(args, value)),
        ArgumentKind::Cell => read_cell(alloc, before, args, value),
        ArgumentKind::Cells => read_cells(alloc, before, args, value),
        ArgumentKind::Sig => read_sig(alloc, args, value),
        ArgumentKind::SigOrNull => read_sig_or_null(alloc, args, value),
        ArgumentKind::At => Ok(read_at(args, value)),
        ArgumentKind::MaxStack => Ok(read_max_stack(args, value)),
        ArgumentKind::InitLocals => Ok(read_init_locals(args, value)),
        ArgumentKind::Namespace => read_namespace(alloc, args, value),
        ArgumentKind::Name => read_name(alloc, args, value),
        ArgumentKind::TextOrNull => read_text(alloc, args, value),
        ArgumentKind::Bytes => read_bytes(alloc, args, value),
        ArgumentKind::Code => Ok(read_code(args, value)),
        ArgumentKind::Operand => read_operand(alloc, before, args, value),
        ArgumentKind::HandlerKind => Ok(read_handler_kind(args, value)),
        ArgumentKind::TryStart => Ok(read_try_start(args, value)),
        ArgumentKind::TryEnd => Ok(read_try_end(args, value)),
        ArgumentKind::HandlerStart => Ok(read_handler_start(args, value)),
        ArgumentKind::HandlerEnd => Ok(read_handler_end(args, value)),
        ArgumentKind::HandlerWith => Ok(read_handler_with(before, args, value)),
    }
}

/// Reads all arguments, of these kinds in order, and answers whether the values are these: as many, and each of its kind.
#[tactic(auto, unfolding(crate::specs::Args::with_arguments))]
pub(crate) fn read_arguments(
    alloc: Global,
    modules: u32,
    before: &[Command],
    kinds: &[ArgumentKind],
    args: &mut Args,
    values: &[Value],
) -> Result<bool, NoMemory>
    ensures { IfOk result (λ fits. if_fits fits args.new ≡ with_arguments modules before.now kinds.now args.old (map view values.now)) }
{
    let [kind, kinds_left @ ..] = kinds else {
        return Ok(values.is_empty());
    };
    let [value, values_left @ ..] = values else {
        return Ok(false);
    };
    if read_argument(alloc, modules, before, *kind, args, value)? {
        read_arguments(alloc, modules, before, kinds_left, args, values_left)
    } else {
        Ok(false)
    }
}
