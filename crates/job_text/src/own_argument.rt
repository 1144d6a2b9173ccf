//! The arguments of a command that take memory, each read into its place. What reads one answers whether the value is of
//! its kind.

ghost use Rattle.std.specs.Prelude.{◌≡◌, IfOk, []};
ghost use Rattle.job_text.specs.ArgumentValues.{given_code_operand, given_sig, given_sig_or_null, given_text_or_null};
ghost use Rattle.job_text.specs.Args.{if_fits, with_argument};
ghost use Rattle.job_text.specs.Values.{given_text};
ghost use Rattle.job_text.specs.declared.form.ArgumentKind.TheVariants as kinds;
ghost use Rattle.serde_json.specs.View.{view};

use crate::args::Args;
use crate::cell::{given_bytes, given_cells, given_column_cell};
use crate::command::Command;
use crate::operand::given_operand;
use crate::values::{given_text_bytes, is_null};
use cil_base::{Bytes, List, NoMemory};
use il_code::{Operand, operand_kind};
use md_schema::table;
use node_model::{OptSig, OptText};
use serde_json::Value;
use sig_read::parse_sig;
use sig_tree::Sig;
use std::alloc::Global;

/// The signature of a text of hex digits: a type alone where the table is TypeSpec.
#[tactic(auto, unfolding(crate::specs::ArgumentValues::given_sig))]
fn given_sig(alloc: Global, of: u8, value: &Value) -> Result<Option<Sig>, NoMemory>
    ensures { IfOk result (λ sig. sig ≡ given_sig of (view value.now)) }
{
    match given_bytes(alloc, value)? {
        Some(blob) => parse_sig(alloc, of == table::TYPE_SPEC, blob.as_slice()),
        None => Ok(None),
    }
}

/// The same, or none for null.
#[tactic(auto, unfolding(crate::specs::ArgumentValues::given_sig_or_null))]
fn given_sig_or_null(alloc: Global, of: u8, value: &Value) -> Result<Option<OptSig>, NoMemory>
    ensures { IfOk result (λ sig. sig ≡ given_sig_or_null of (view value.now)) }
{
    if is_null(value) {
        return Ok(Some(OptSig::None));
    }
    match given_sig(alloc, of, value)? {
        Some(sig) => Ok(Some(OptSig::Is(sig))),
        None => Ok(None),
    }
}

/// The bytes of a text, of their own.
fn given_text_copy(alloc: Global, value: &Value) -> Result<Option<Bytes>, NoMemory>
    ensures { IfOk result (λ text. text ≡ given_text (view value.now)) }
{
    match given_text_bytes(value) {
        Some(text) => Ok(Some(List::from_slice(alloc, text)?)),
        None => Ok(None),
    }
}

/// The same, or none for null.
#[tactic(auto, unfolding(crate::specs::ArgumentValues::given_text_or_null))]
fn given_text_or_null(alloc: Global, value: &Value) -> Result<Option<OptText>, NoMemory>
    ensures { IfOk result (λ text. text ≡ given_text_or_null (view value.now)) }
{
    if is_null(value) {
        return Ok(Some(OptText::None));
    }
    match given_text_copy(alloc, value)? {
        Some(text) => Ok(Some(OptText::Is(text))),
        None => Ok(None),
    }
}

/// The operand that a value gives for the instruction of a code.
#[tactic(auto, unfolding(crate::specs::ArgumentValues::given_code_operand))]
fn given_code_operand(
    alloc: Global,
    home: u32,
    before: &[Command],
    code: u16,
    value: &Value,
) -> Result<Option<Operand>, NoMemory>
    ensures { IfOk result (λ operand. operand ≡ given_code_operand home before.now code (view value.now)) }
{
    match operand_kind(code) {
        Some(kind) => given_operand(alloc, home, before, kind, value),
        None => Ok(None),
    }
}

/// A cell of the column that was named.
#[tactic(auto, unfolding(crate::specs::Args::with_argument))]
pub(crate) fn read_cell(
    alloc: Global,
    before: &[Command],
    args: &mut Args,
    value: &Value,
) -> Result<bool, NoMemory>
    ensures { IfOk result (λ fits. if_fits fits args.new ≡ with_argument 0 before.now kinds.Cell args.old (view value.now)) }
{
    match given_column_cell(alloc, args.module, before, args.table, args.column, value)? {
        Some(cell) => {
            args.cell = cell;
            Ok(true)
        }
        None => Ok(false),
    }
}

/// Cells of the table.
#[tactic(auto, unfolding(crate::specs::Args::with_argument))]
pub(crate) fn read_cells(
    alloc: Global,
    before: &[Command],
    args: &mut Args,
    value: &Value,
) -> Result<bool, NoMemory>
    ensures { IfOk result (λ fits. if_fits fits args.new ≡ with_argument 0 before.now kinds.Cells args.old (view value.now)) }
{
    match given_cells(alloc, args.module, before, args.table, value)? {
        Some(cells) => {
            args.cells = cells;
            Ok(true)
        }
        None => Ok(false),
    }
}

/// A signature of a row of the table.
#[tactic(auto, unfolding(crate::specs::Args::with_argument))]
pub(crate) fn read_sig(alloc: Global, args: &mut Args, value: &Value) -> Result<bool, NoMemory>
    ensures { IfOk result (λ fits. if_fits fits args.new ≡ with_argument 0 [] kinds.Sig args.old (view value.now)) }
{
    match given_sig(alloc, args.table, value)? {
        Some(sig) => {
            args.sig = OptSig::Is(sig);
            Ok(true)
        }
        None => Ok(false),
    }
}

/// The same, or null.
#[tactic(auto, unfolding(crate::specs::Args::with_argument))]
pub(crate) fn read_sig_or_null(
    alloc: Global,
    args: &mut Args,
    value: &Value,
) -> Result<bool, NoMemory>
    ensures { IfOk result (λ fits. if_fits fits args.new ≡ with_argument 0 [] kinds.SigOrNull args.old (view value.now)) }
{
    match given_sig_or_null(alloc, args.table, value)? {
        Some(sig) => {
            args.sig = sig;
            Ok(true)
        }
        None => Ok(false),
    }
}

/// The namespace of a type.
#[tactic(auto, unfolding(crate::specs::Args::with_argument))]
pub(crate) fn read_namespace(
    alloc: Global,
    args: &mut Args,
    value: &Value,
) -> Result<bool, NoMemory>
    ensures { IfOk result (λ fits. if_fits fits args.new ≡ with_argument 0 [] kinds.Namespace args.old (view value.now)) }
{
    match given_text_copy(alloc, value)? {
        Some(text) => {
            args.namespace = text;
            Ok(true)
        }
        None => Ok(false),
    }
}

/// A name.
#[tactic(auto, unfolding(crate::specs::Args::with_argument))]
pub(crate) fn read_name(alloc: Global, args: &mut Args, value: &Value) -> Result<bool, NoMemory>
    ensures { IfOk result (λ fits. if_fits fits args.new ≡ with_argument 0 [] kinds.Name args.old (view value.now)) }
{
    match given_text_copy(alloc, value)? {
        Some(text) => {
            args.name = text;
            Ok(true)
        }
        None => Ok(false),
    }
}

/// A text, or null.
#[tactic(auto, unfolding(crate::specs::Args::with_argument))]
pub(crate) fn read_text(alloc: Global, args: &mut Args, value: &Value) -> Result<bool, NoMemory>
    ensures { IfOk result (λ fits. if_fits fits args.new ≡ with_argument 0 [] kinds.TextOrNull args.old (view value.now)) }
{
    match given_text_or_null(alloc, value)? {
        Some(text) => {
            args.text = text;
            Ok(true)
        }
        None => Ok(false),
    }
}

/// Bytes as hex digits.
#[tactic(auto, unfolding(crate::specs::Args::with_argument))]
pub(crate) fn read_bytes(alloc: Global, args: &mut Args, value: &Value) -> Result<bool, NoMemory>
    ensures { IfOk result (λ fits. if_fits fits args.new ≡ with_argument 0 [] kinds.Bytes args.old (view value.now)) }
{
    match given_bytes(alloc, value)? {
        Some(bytes) => {
            args.bytes = bytes;
            Ok(true)
        }
        None => Ok(false),
    }
}

/// An operand of the instruction that was named.
#[tactic(auto, unfolding(crate::specs::Args::with_argument))]
pub(crate) fn read_operand(
    alloc: Global,
    before: &[Command],
    args: &mut Args,
    value: &Value,
) -> Result<bool, NoMemory>
    ensures { IfOk result (λ fits. if_fits fits args.new ≡ with_argument 0 before.now kinds.Operand args.old (view value.now)) }
{
    match given_code_operand(alloc, args.module, before, args.code, value)? {
        Some(operand) => {
            args.operand = operand;
            Ok(true)
        }
        None => Ok(false),
    }
}
