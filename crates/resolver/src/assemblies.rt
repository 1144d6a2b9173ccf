//! Types of other assemblies, which their exported types may lead on to (ECMA-335 II.22.2, II.22.5, II.22.14).

ghost use Rattle.std.specs.Prelude.{◌≡◌, codes, true, IfOk};
ghost use Rattle.std.specs.Str.{bytes_eq};
ghost use Rattle.resolver.specs.Found.{found, on_found, on_row, on_tokens};
ghost use Rattle.resolver.specs.NamedTypes.{after_assembly, after_exported, after_forward, after_no_type};
ghost use Rattle.resolver.specs.NamedTypes.{next_assembly};
ghost use Rattle.resolver.specs.References.{row_name};

use crate::cells::token_named;
use crate::found::{found, hop_to, stopped, unresolved};
use crate::named_types::{TypeName, TypeStage, has_name};
use crate::references::row_name;
use crate::state::{Advance, Stage, State};
use cil_base::{Bytes, NoMemory, Token};
use md_schema::table;
use node_model::{Reply, RowValue};
use std::alloc::Global;

pub(crate) fn after_assembly_ref(
    alloc: Global,
    state: &State,
    wanted: &TypeName,
    reply: &Reply,
) -> Result<Advance, NoMemory>
    ensures { IfOk result (λ advance. advance ≡ on_row reply.now (λ row. Advance.To
        (Stage.NamedType (TypeStage.Assembly state.now.modules (row_name row) wanted.now true)))) }
{
    match reply {
        Reply::Row(row) => {
            let name = row_name(alloc, row)?;
            assembly_stage(state.modules, name, wanted, true)
        }
        _ => stopped(alloc, reply),
    }
}

/// The search for an assembly of the name among the last so many modules.
pub(crate) fn assembly_stage(
    left: u32,
    name: Bytes,
    wanted: &TypeName,
    forwards: bool,
) -> Result<Advance, NoMemory>
    ensures { IfOk result (λ advance. advance
        ≡ Advance.To (Stage.NamedType (TypeStage.Assembly left name wanted.now forwards))) }
{
    let wanted = wanted.copy()?;
    Ok(Advance::To(Stage::NamedType(TypeStage::Assembly {
        left,
        name,
        wanted,
        forwards,
    })))
}

/// The next module, since this one does not have the assembly.
pub(crate) fn after_other_assembly(
    left: u32,
    name: &Bytes,
    wanted: &TypeName,
    forwards: bool,
) -> Result<Advance, NoMemory>
    ensures { IfOk result (λ advance. advance ≡ Advance.To (next_assembly left name.now wanted.now forwards)) }
{
    let name = name.copy()?;
    assembly_stage(left.saturating_sub(1), name, wanted, forwards)
}

/// The type is looked for in the module of that number.
fn by_name(at: u32, wanted: &TypeName, forwards: bool) -> Result<Advance, NoMemory>
    ensures { IfOk result (λ advance. advance
        ≡ Advance.To (Stage.NamedType (TypeStage.ByName at wanted.now forwards))) }
{
    let wanted = wanted.copy()?;
    Ok(Advance::To(Stage::NamedType(TypeStage::ByName {
        at,
        wanted,
        forwards,
    })))
}

fn after_assembly(
    state: &State,
    left: u32,
    name: &Bytes,
    wanted: &TypeName,
    forwards: bool,
    same: bool,
) -> Result<Advance, NoMemory>
    ensures { IfOk result (λ advance. advance
        ≡ after_assembly state.now left name.now wanted.now forwards same) }
{
    if same {
        return by_name(state.modules.saturating_sub(left), wanted, forwards);
    }
    after_other_assembly(left, name, wanted, forwards)
}

pub(crate) fn after_assembly_row(
    alloc: Global,
    state: &State,
    left: u32,
    name: &Bytes,
    wanted: &TypeName,
    forwards: bool,
    reply: &Reply,
) -> Result<Advance, NoMemory>
    ensures { IfOk result (λ advance. advance ≡ on_row reply.now (λ row.
        after_assembly state.now left name.now wanted.now forwards (bytes_eq (row_name row) name.now))) }
{
    match reply {
        Reply::Row(row) => after_assembly(state, left, name, wanted, forwards, has_name(row, name)),
        _ => stopped(alloc, reply),
    }
}

/// There is no such type in the module.
fn after_no_type(
    state: &State,
    at: u32,
    wanted: &TypeName,
    forwards: bool,
) -> Result<Advance, NoMemory>
    ensures { IfOk result (λ advance. advance ≡ after_no_type state.now at wanted.now forwards) }
{
    if forwards {
        let wanted = wanted.copy()?;
        return Ok(Advance::To(Stage::NamedType(TypeStage::ExportedTypes { at, wanted })));
    }
    unresolved(state, &wanted.name)
}

pub(crate) fn after_search(
    alloc: Global,
    state: &State,
    at: u32,
    wanted: &TypeName,
    forwards: bool,
    reply: &Reply,
) -> Result<Advance, NoMemory>
    ensures { IfOk result (λ advance. advance ≡ on_found reply.now (found state.now at)
        (after_no_type state.now at wanted.now forwards)) }
{
    match reply {
        Reply::Found(token) => found(alloc, state, at, *token),
        Reply::NotFound => after_no_type(state, at, wanted, forwards),
        _ => stopped(alloc, reply),
    }
}

pub(crate) fn after_exported_types(
    alloc: Global,
    at: u32,
    wanted: &TypeName,
    reply: &Reply,
) -> Result<Advance, NoMemory>
    ensures { IfOk result (λ advance. advance ≡ on_tokens reply.now
        (λ tokens. Advance.Over tokens (Stage.NamedType (TypeStage.ExportedType at wanted.now)))) }
{
    match reply {
        Reply::Tokens(_, tokens) => {
            let tokens = tokens.copy()?;
            let wanted = wanted.copy()?;
            let stage = Stage::NamedType(TypeStage::ExportedType { at, wanted });
            Ok(Advance::Over(tokens, stage))
        }
        _ => stopped(alloc, reply),
    }
}

/// An exported type of the name, by where it stands.
fn after_forward(
    alloc: Global,
    state: &State,
    at: u32,
    wanted: &TypeName,
    implementation: Option<Token>,
) -> Result<Advance, NoMemory>
    ensures { IfOk result (λ advance. advance ≡ after_forward state.now at wanted.now implementation) }
{
    let Some(token) = implementation else {
        return unresolved(state, &wanted.name);
    };
    if token.table == table::ASSEMBLY_REF {
        let wanted = wanted.copy()?;
        return hop_to(alloc, state, TypeStage::AssemblyRef { at, token, wanted });
    }
    unresolved(state, &wanted.name)
}

fn after_exported(
    alloc: Global,
    state: &State,
    at: u32,
    wanted: &TypeName,
    row: &RowValue,
) -> Result<Advance, NoMemory>
    ensures { IfOk result (λ advance. advance ≡ after_exported state.now at wanted.now row.now) }
{
    if wanted.names(row) {
        let implementation = token_named(row, b"Implementation");
        return after_forward(alloc, state, at, wanted, implementation);
    }
    let wanted = wanted.copy()?;
    Ok(Advance::Onward(Stage::NamedType(TypeStage::ExportedType { at, wanted })))
}

pub(crate) fn after_exported_type(
    alloc: Global,
    state: &State,
    at: u32,
    wanted: &TypeName,
    reply: &Reply,
) -> Result<Advance, NoMemory>
    ensures { IfOk result (λ advance. advance ≡ on_row reply.now (after_exported state.now at wanted.now)) }
{
    match reply {
        Reply::Row(row) => after_exported(alloc, state, at, wanted, row),
        _ => stopped(alloc, reply),
    }
}
