//! Types that are looked for among those nested in another (ECMA-335 II.22.32).

ghost use Rattle.std.specs.Prelude.{◌≡◌, codes, IfOk};
ghost use Rattle.std.specs.Str.{bytes_eq};
ghost use Rattle.node_model.specs.RowTexts.{token_named};
ghost use Rattle.resolver.specs.Found.{on_row, on_tokens};
ghost use Rattle.resolver.specs.NamedTypes.{after_nested_row, after_nested_type};
ghost use Rattle.resolver.specs.References.{row_name};

use crate::cells::token_named;
use crate::found::{found, stopped};
use crate::named_types::{TypeStage, has_name};
use crate::state::{Advance, Stage, State};
use cil_base::{Bytes, NoMemory, Token};
use node_model::Reply;
use std::alloc::Global;

/// The first of the NestedClass rows that are left is asked.
fn row_stage(at: u32, name: &Bytes) -> Result<Stage, NoMemory>
    ensures { IfOk result (λ stage. stage ≡ Stage.NamedType (TypeStage.NestedRow at name.now)) }
{
    let name = name.copy()?;
    Ok(Stage::NamedType(TypeStage::NestedRow { at, name }))
}

pub(crate) fn after_nested_types(
    alloc: Global,
    at: u32,
    name: &Bytes,
    reply: &Reply,
) -> Result<Advance, NoMemory>
    ensures { IfOk result (λ advance. advance ≡ on_tokens reply.now
        (λ tokens. Advance.Over tokens (Stage.NamedType (TypeStage.NestedRow at name.now)))) }
{
    match reply {
        Reply::Tokens(_, tokens) => {
            let tokens = tokens.copy()?;
            Ok(Advance::Over(tokens, row_stage(at, name)?))
        }
        _ => stopped(alloc, reply),
    }
}

/// A NestedClass row by the type that it names.
fn after_nested_token(at: u32, name: &Bytes, token: Option<Token>) -> Result<Advance, NoMemory>
    ensures { IfOk result (λ advance. advance ≡ after_nested_row at name.now token) }
{
    let Some(token) = token else {
        return Ok(Advance::Onward(row_stage(at, name)?));
    };
    let name = name.copy()?;
    Ok(Advance::To(Stage::NamedType(TypeStage::NestedType { at, token, name })))
}

pub(crate) fn after_nested_row(
    alloc: Global,
    at: u32,
    name: &Bytes,
    reply: &Reply,
) -> Result<Advance, NoMemory>
    ensures { IfOk result (λ advance. advance ≡ on_row reply.now
        (λ row. after_nested_row at name.now (token_named (codes "NestedClass") row))) }
{
    match reply {
        Reply::Row(row) => after_nested_token(at, name, token_named(row, b"NestedClass")),
        _ => stopped(alloc, reply),
    }
}

/// A nested type, which has the name or not.
fn after_type(
    alloc: Global,
    state: &State,
    at: u32,
    token: Token,
    name: &Bytes,
    same: bool,
) -> Result<Advance, NoMemory>
    ensures { IfOk result (λ advance. advance ≡ after_nested_type state.now at token name.now same) }
{
    if same {
        return found(alloc, state, at, token);
    }
    Ok(Advance::Onward(row_stage(at, name)?))
}

pub(crate) fn after_nested_type(
    alloc: Global,
    state: &State,
    at: u32,
    token: Token,
    name: &Bytes,
    reply: &Reply,
) -> Result<Advance, NoMemory>
    ensures { IfOk result (λ advance. advance ≡ on_row reply.now
        (λ row. after_nested_type state.now at token name.now (bytes_eq (row_name row) name.now))) }
{
    match reply {
        Reply::Row(row) => after_type(alloc, state, at, token, name, has_name(row, name)),
        _ => stopped(alloc, reply),
    }
}
