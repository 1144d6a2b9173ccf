//! The arguments of a command that take no memory, each read into its place. What reads one answers whether the value is
//! of its kind.

ghost use Rattle.std.specs.Prelude.{◌≡◌, []};
ghost use Rattle.job_text.specs.ArgumentValues.{given_code, given_column, given_link, given_member_table, given_table, given_u32};
ghost use Rattle.job_text.specs.Args.{if_fits, with_argument};
ghost use Rattle.job_text.specs.declared.form.ArgumentKind.TheVariants as kinds;
ghost use Rattle.serde_json.specs.View.{view};

use crate::args::Args;
use crate::command::Command;
use crate::names::{cell_column_named, code_named, link_named, table_named};
use crate::token::given_token;
use crate::values::{given_flag, given_number, given_text, is_null};
use cil_base::Token;
use md_schema::{Link, table};
use serde_json::Value;

/// The number of four bytes that a value gives.
#[tactic(auto, unfolding(crate::specs::ArgumentValues::given_u32))]
pub(crate) fn given_u32(value: &Value) -> Option<u32>
    ensures { result ≡ given_u32 (view value.now) }
{
    let number = given_number(value, 0x1_0000_0000)?;
    Some(number as u32)
}

/// The table that a text names.
#[tactic(auto, unfolding(crate::specs::ArgumentValues::given_table))]
fn given_table(value: &Value) -> Option<u8>
    ensures { result ≡ given_table (view value.now) }
{
    table_named(given_text(value)?)
}

/// The table that a text names, where its rows are the members of types.
#[tactic(auto, unfolding(crate::specs::ArgumentValues::given_member_table))]
fn given_member_table(value: &Value) -> Option<u8>
    ensures { result ≡ given_member_table (view value.now) }
{
    let number = given_table(value)?;
    if number == table::FIELD || number == table::METHOD_DEF {
        Some(number)
    } else {
        None
    }
}

/// The link that a text names.
#[tactic(auto, unfolding(crate::specs::ArgumentValues::given_link))]
fn given_link(value: &Value) -> Option<Link>
    ensures { result ≡ given_link (view value.now) }
{
    link_named(given_text(value)?)
}

/// The column of a table that a text names.
#[tactic(auto, unfolding(crate::specs::ArgumentValues::given_column))]
fn given_column(table: u8, value: &Value) -> Option<u8>
    ensures { result ≡ given_column table (view value.now) }
{
    cell_column_named(table, given_text(value)?)
}

/// The code of the instruction that a text names.
#[tactic(auto, unfolding(crate::specs::ArgumentValues::given_code))]
fn given_code(value: &Value) -> Option<u16>
    ensures { result ≡ given_code (view value.now) }
{
    code_named(given_text(value)?)
}

/// The number of a module, of which there are `modules`.
#[tactic(auto, unfolding(crate::specs::Args::with_argument))]
pub(crate) fn read_module(modules: u32, args: &mut Args, value: &Value) -> bool
    ensures { if_fits result args.new ≡ with_argument modules [] kinds.Module args.old (view value.now) }
{
    match given_number(value, modules as u64) {
        Some(found) => {
            args.module = found as u32;
            true
        }
        None => false,
    }
}

/// A token, with the table of its row.
#[tactic(auto, unfolding(crate::specs::Args::with_argument))]
pub(crate) fn read_token(before: &[Command], args: &mut Args, value: &Value) -> bool
    ensures { if_fits result args.new ≡ with_argument 0 before.now kinds.Token args.old (view value.now) }
{
    match given_token(args.module, before, value) {
        Some(row) => {
            args.token = row.token;
            args.table = row.table;
            true
        }
        None => false,
    }
}

/// The token of an owner.
#[tactic(auto, unfolding(crate::specs::Args::with_argument))]
pub(crate) fn read_owner(before: &[Command], args: &mut Args, value: &Value) -> bool
    ensures { if_fits result args.new ≡ with_argument 0 before.now kinds.Owner args.old (view value.now) }
{
    match given_token(args.module, before, value) {
        Some(row) => {
            args.other = row.token;
            true
        }
        None => false,
    }
}

/// The token of local variables, or null for the root.
#[tactic(auto, unfolding(crate::specs::Args::with_argument))]
pub(crate) fn read_locals(before: &[Command], args: &mut Args, value: &Value) -> bool
    ensures { if_fits result args.new ≡ with_argument 0 before.now kinds.Locals args.old (view value.now) }
{
    if is_null(value) {
        args.other = Token::ROOT;
        true
    } else {
        read_owner(before, args, value)
    }
}

/// The name of a table.
#[tactic(auto, unfolding(crate::specs::Args::with_argument))]
pub(crate) fn read_table(args: &mut Args, value: &Value) -> bool
    ensures { if_fits result args.new ≡ with_argument 0 [] kinds.Table args.old (view value.now) }
{
    match given_table(value) {
        Some(table) => {
            args.table = table;
            true
        }
        None => false,
    }
}

/// The name of the table of fields, or of that of methods.
#[tactic(auto, unfolding(crate::specs::Args::with_argument))]
pub(crate) fn read_member_table(args: &mut Args, value: &Value) -> bool
    ensures { if_fits result args.new ≡ with_argument 0 [] kinds.MemberTable args.old (view value.now) }
{
    match given_member_table(value) {
        Some(table) => {
            args.table = table;
            true
        }
        None => false,
    }
}

/// The name of a link.
#[tactic(auto, unfolding(crate::specs::Args::with_argument))]
pub(crate) fn read_link(args: &mut Args, value: &Value) -> bool
    ensures { if_fits result args.new ≡ with_argument 0 [] kinds.Link args.old (view value.now) }
{
    match given_link(value) {
        Some(link) => {
            args.link = link;
            true
        }
        None => false,
    }
}

/// The name of a column of the token's table.
#[tactic(auto, unfolding(crate::specs::Args::with_argument))]
pub(crate) fn read_column(args: &mut Args, value: &Value) -> bool
    ensures { if_fits result args.new ≡ with_argument 0 [] kinds.Column args.old (view value.now) }
{
    match given_column(args.table, value) {
        Some(column) => {
            args.column = column;
            true
        }
        None => false,
    }
}

/// A place.
#[tactic(auto, unfolding(crate::specs::Args::with_argument))]
pub(crate) fn read_at(args: &mut Args, value: &Value) -> bool
    ensures { if_fits result args.new ≡ with_argument 0 [] kinds.At args.old (view value.now) }
{
    match given_u32(value) {
        Some(at) => {
            args.at = at;
            true
        }
        None => false,
    }
}

/// A number of two bytes.
#[tactic(auto, unfolding(crate::specs::Args::with_argument))]
pub(crate) fn read_max_stack(args: &mut Args, value: &Value) -> bool
    ensures { if_fits result args.new ≡ with_argument 0 [] kinds.MaxStack args.old (view value.now) }
{
    match given_number(value, 0x1_0000) {
        Some(found) => {
            args.max_stack = found as u16;
            true
        }
        None => false,
    }
}

/// True or false.
#[tactic(auto, unfolding(crate::specs::Args::with_argument))]
pub(crate) fn read_init_locals(args: &mut Args, value: &Value) -> bool
    ensures { if_fits result args.new ≡ with_argument 0 [] kinds.InitLocals args.old (view value.now) }
{
    match given_flag(value) {
        Some(flag) => {
            args.init_locals = flag;
            true
        }
        None => false,
    }
}

/// The name of an instruction.
#[tactic(auto, unfolding(crate::specs::Args::with_argument))]
pub(crate) fn read_code(args: &mut Args, value: &Value) -> bool
    ensures { if_fits result args.new ≡ with_argument 0 [] kinds.Code args.old (view value.now) }
{
    match given_code(value) {
        Some(code) => {
            args.code = code;
            true
        }
        None => false,
    }
}
