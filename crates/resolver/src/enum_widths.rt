//! Enums that are looked for by their names, and the widths of their values (ECMA-335 II.14.3, II.22.15, II.23.3).

ghost use Rattle.std.specs.Prelude.{◌≡◌, ◌-◌, codes, IfOk};
ghost use Rattle.sig_tree.specs.declared.tree.TypeSig.TheViews.{out-TypeSig};
ghost use Rattle.resolver.specs.EnumWidths.{after_enum, after_field, after_width, field_width, is_static, type_width};
ghost use Rattle.resolver.specs.EnumWidths.{with_width};
ghost use Rattle.resolver.specs.Found.{found, on_found, on_row, on_sig, on_tokens};
ghost use Rattle.resolver.specs.Questions.{enum_question, find_type, of_first, of_module, unresolved_next};

use crate::cells::number_named;
use crate::found::{found, stopped};
use crate::named_types::{TypeName, unresolved_next};
use crate::next::{Next, question};
use crate::reading::Reading;
use crate::state::{Advance, Stage, State};
use crate::values::{bad_attribute, read_on};
use attr_blob::EnumWidth;
use cil_base::{NoMemory, Token};
use md_schema::table;
use node_model::{Query, Reply, RowValue};
use sig_tree::{SigTree, TypeSig};
use std::alloc::Global;

/// The flag of a field that belongs to the type and not to its values (ECMA-335 II.23.1.5).
const STATIC: u64 = 0x10;

/// What is asked for an enum whose width is needed.
#[derive(Drop)]
pub(crate) enum EnumStage {
    /// The type by its name, in the module of the attribute.
    Here(TypeName),
    /// The type by its name, in the first of the last so many modules.
    Anywhere { left: u32, wanted: TypeName },
    /// The list of the fields of the type.
    Fields { at: u32, of: Token },
    /// The row of the first field that is left.
    Field { at: u32 },
    /// Its signature.
    FieldSig { at: u32 },
}

fn anywhere_question(state: &State, left: u32, wanted: &TypeName) -> Result<Next, NoMemory>
    ensures { IfOk result (λ next. next
        ≡ of_module state.now left (find_type wanted.now) (unresolved_next state.now wanted.now.name)) }
{
    if left == 0 {
        return unresolved_next(state, &wanted.name);
    }
    question(state.modules.saturating_sub(left), wanted.search()?)
}

fn field_question(state: &State, at: u32) -> Result<Next, NoMemory>
    ensures { IfOk result (λ next. next ≡ of_first state.now.left at Query.Row Next.BadAttribute) }
{
    match state.left.first() {
        Some(token) => question(at, Query::Row(token)),
        None => Ok(Next::BadAttribute),
    }
}

fn field_sig_question(state: &State, at: u32) -> Result<Next, NoMemory>
    ensures { IfOk result (λ next. next ≡ of_first state.now.left at Query.Sig Next.BadAttribute) }
{
    match state.left.first() {
        Some(token) => question(at, Query::Sig(token)),
        None => Ok(Next::BadAttribute),
    }
}

impl EnumStage {
    pub(crate) fn question(&self, state: &State) -> Result<Next, NoMemory>
        ensures { IfOk result (λ next. next ≡ enum_question state.now self.now) }
    {
        match self {
            EnumStage::Here(wanted) => question(state.home, wanted.search()?),
            EnumStage::Anywhere { left, wanted } => anywhere_question(state, *left, wanted),
            EnumStage::Fields { at, of } => question(*at, Query::Members(*of, table::FIELD)),
            EnumStage::Field { at } => field_question(state, *at),
            EnumStage::FieldSig { at } => field_sig_question(state, *at),
        }
    }
}

/// The type is looked for in the last so many modules.
fn anywhere(left: u32, wanted: &TypeName) -> Result<Advance, NoMemory>
    ensures { IfOk result (λ advance. advance
        ≡ Advance.To (Stage.EnumType (EnumStage.Anywhere left wanted.now))) }
{
    let wanted = wanted.copy()?;
    Ok(Advance::To(Stage::EnumType(EnumStage::Anywhere { left, wanted })))
}

fn after_search(
    alloc: Global,
    state: &State,
    at: u32,
    left: u32,
    wanted: &TypeName,
    reply: &Reply,
) -> Result<Advance, NoMemory>
    ensures { IfOk result (λ advance. advance ≡ on_found reply.now (found state.now at)
        (Advance.To (Stage.EnumType (EnumStage.Anywhere left wanted.now)))) }
{
    match reply {
        Reply::Found(token) => found(alloc, state, at, *token),
        Reply::NotFound => anywhere(left, wanted),
        _ => stopped(alloc, reply),
    }
}

fn after_fields(alloc: Global, at: u32, reply: &Reply) -> Result<Advance, NoMemory>
    ensures { IfOk result (λ advance. advance ≡ on_tokens reply.now
        (λ tokens. Advance.Over tokens (Stage.EnumType (EnumStage.Field at)))) }
{
    match reply {
        Reply::Tokens(_, tokens) => {
            let tokens = tokens.copy()?;
            Ok(Advance::Over(tokens, Stage::EnumType(EnumStage::Field { at })))
        }
        _ => stopped(alloc, reply),
    }
}

/// Whether a field belongs to the type and not to its values.
fn is_static(row: &RowValue) -> bool
    ensures { result ≡ is_static row.now }
{
    number_named(row, b"Flags") & STATIC != 0
}

fn after_field(at: u32, is_static: bool) -> Advance
    ensures { result ≡ after_field at is_static }
{
    if is_static {
        Advance::Onward(Stage::EnumType(EnumStage::Field { at }))
    } else {
        Advance::To(Stage::EnumType(EnumStage::FieldSig { at }))
    }
}

fn after_field_row(alloc: Global, at: u32, reply: &Reply) -> Result<Advance, NoMemory>
    ensures { IfOk result (λ advance. advance ≡ on_row reply.now (λ row. after_field at (is_static row))) }
{
    match reply {
        Reply::Row(row) => Ok(after_field(at, is_static(row))),
        _ => stopped(alloc, reply),
    }
}

fn type_width(ty: &TypeSig) -> Option<u8>
    ensures { result ≡ type_width (out-TypeSig ty.now) }
{
    match ty {
        TypeSig::Prim(code) => {
            if 0x02 <= *code && *code <= 0x0b {
                Some(*code)
            } else {
                None
            }
        }
        _ => None,
    }
}

/// The element type of the values of an enum, by the signature of its field.
fn field_width(sig: &SigTree) -> Option<u8>
    ensures { result ≡ field_width sig.now }
{
    match sig {
        SigTree::Field(ty) => type_width(ty),
        _ => None,
    }
}

/// The width of the enum is known.
fn with_width(
    alloc: Global,
    state: &State,
    elem: u8,
    reading: &Option<Reading>,
) -> Result<Advance, NoMemory>
    ensures { IfOk result (λ advance. advance ≡ with_width state.now elem reading.now) }
{
    let Some(reading) = reading else {
        return Ok(bad_attribute());
    };
    let mut reading = reading.copy(alloc)?;
    let name = reading.wanted.copy()?;
    reading.widths.push(EnumWidth { name, elem })?;
    read_on(alloc, state, reading)
}

/// A field by its signature.
fn after_width(
    alloc: Global,
    state: &State,
    at: u32,
    width: Option<u8>,
) -> Result<Advance, NoMemory>
    ensures { IfOk result (λ advance. advance ≡ after_width state.now at width) }
{
    match width {
        Some(elem) => with_width(alloc, state, elem, &state.reading),
        None => Ok(Advance::Onward(Stage::EnumType(EnumStage::Field { at }))),
    }
}

fn after_field_sig(
    alloc: Global,
    state: &State,
    at: u32,
    reply: &Reply,
) -> Result<Advance, NoMemory>
    ensures { IfOk result (λ advance. advance ≡ on_sig reply.now
        (λ sig. after_width state.now at (field_width sig))) }
{
    match reply {
        Reply::Sig(_, sig) => after_width(alloc, state, at, field_width(sig.tree())),
        _ => stopped(alloc, reply),
    }
}

/// What the reply leads to.
pub(crate) fn after_enum(
    alloc: Global,
    state: &State,
    stage: &EnumStage,
    reply: &Reply,
) -> Result<Advance, NoMemory>
    ensures { IfOk result (λ advance. advance ≡ after_enum state.now stage.now reply.now) }
{
    match stage {
        EnumStage::Here(wanted) => {
            after_search(alloc, state, state.home, state.modules, wanted, reply)
        }
        EnumStage::Anywhere { left, wanted } => {
            let at = state.modules.saturating_sub(*left);
            after_search(alloc, state, at, left.saturating_sub(1), wanted, reply)
        }
        EnumStage::Fields { at, .. } => after_fields(alloc, *at, reply),
        EnumStage::Field { at } => after_field_row(alloc, *at, reply),
        EnumStage::FieldSig { at } => after_field_sig(alloc, state, *at, reply),
    }
}
