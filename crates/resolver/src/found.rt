//! What a type that was found leads to, and what a token that is to be resolved leads to.

ghost use Rattle.std.specs.Prelude.{◌≡◌, ◌∷◌, IfOk};
ghost use Rattle.resolver.specs.Found.{ended, first_stage, found, found_stage, found_with, hop, hop_to};
ghost use Rattle.resolver.specs.Found.{is_definition, resolved_with, resumed_stage, stopped, unresolved};
ghost use Rattle.resolver.specs.Questions.{unresolved_name};

use crate::enum_widths::EnumStage;
use crate::members::MemberStage;
use crate::named_types::TypeStage;
use crate::reading::Reading;
use crate::references::ReferenceStage;
use crate::state::{Advance, End, Stage, State};
use crate::waiting::{Waiting, copy_waiting, with_waiting};
use cil_base::{Boxed, Bytes, List, NoMemory, Token};
use md_schema::table;
use node_model::Reply;
use std::alloc::Global;

/// How many steps to another token are taken.
const MOST_HOPS: u32 = 99;

pub(crate) fn ended(end: End) -> Advance
    ensures { result ≡ ended end }
{
    Advance::To(Stage::Ended(end))
}

/// The reply does not fit.
pub(crate) fn stopped(alloc: Global, reply: &Reply) -> Result<Advance, NoMemory>
    ensures { IfOk result (λ advance. advance ≡ stopped reply.now) }
{
    let reply = reply.copy(alloc)?;
    Ok(ended(End::Stopped(Boxed::new(alloc, reply)?)))
}

/// The name that is told to be unresolved.
pub(crate) fn unresolved_name<'a>(reading: &'a Option<Reading>, name: &'a Bytes) -> &'a Bytes
    ensures { result.now ≡ unresolved_name reading.now name.now }
{
    match reading {
        Some(reading) => &reading.wanted,
        None => name,
    }
}

/// Nothing has the name.
pub(crate) fn unresolved(state: &State, name: &Bytes) -> Result<Advance, NoMemory>
    ensures { IfOk result (λ advance. advance ≡ unresolved state.now name.now) }
{
    let name = unresolved_name(&state.reading, name).copy()?;
    Ok(ended(End::Unresolved(name)))
}

/// Whether the rows of a table are found at once.
pub(crate) fn is_definition(table: u8) -> bool
    ensures { result ≡ is_definition table }
{
    table == table::TYPE_DEF || table == table::FIELD || table == table::METHOD_DEF
}

/// What is asked of a reference first.
pub(crate) fn first_stage(at: u32, token: Token) -> Stage
    ensures { result ≡ first_stage at token }
{
    if token.table == table::TYPE_REF {
        Stage::Reference(ReferenceStage::TypeRef { at, token })
    } else if token.table == table::TYPE_SPEC {
        Stage::Reference(ReferenceStage::TypeSpec { at, token })
    } else if token.table == table::METHOD_SPEC {
        Stage::Reference(ReferenceStage::MethodSpec { at, token })
    } else if token.table == table::MEMBER_REF {
        Stage::Reference(ReferenceStage::MemberRef { at, token })
    } else {
        Stage::Ended(End::NoReference(token))
    }
}

/// What was found with nothing waiting for it.
fn found_stage(reading: &Option<Reading>, at: u32, token: Token) -> Stage
    ensures { result ≡ found_stage reading.now at token }
{
    match reading {
        Some(_) => Stage::EnumType(EnumStage::Fields { at, of: token }),
        None => Stage::Ended(End::Found { at, token }),
    }
}

/// What waited for the type goes on with it.
fn resumed_stage(waiting: &Waiting, at: u32, token: Token) -> Result<Stage, NoMemory>
    ensures { IfOk result (λ stage. stage ≡ resumed_stage waiting.now at token) }
{
    match waiting {
        Waiting::Nested(name) => {
            let name = name.copy()?;
            Ok(Stage::NamedType(TypeStage::NestedTypes {
                at,
                of: token,
                name,
            }))
        }
        Waiting::Class {
            at: place,
            member,
            name,
        } => {
            let name = name.copy()?;
            Ok(Stage::Member(MemberStage::SigText {
                at: *place,
                member: *member,
                name,
                found_at: at,
                of: token,
            }))
        }
        Waiting::Base(wanted) => {
            let wanted = wanted.copy()?;
            Ok(Stage::Member(MemberStage::ByName {
                at,
                of: token,
                wanted,
            }))
        }
    }
}

fn found_with(
    alloc: Global,
    reading: &Option<Reading>,
    hops: u32,
    waiting: &[Waiting],
    at: u32,
    token: Token,
) -> Result<Advance, NoMemory>
    ensures { IfOk result (λ advance. advance ≡ found_with reading.now hops waiting.now at token) }
{
    match waiting {
        [] => Ok(Advance::Waits {
            hops,
            waiting: List::new(alloc),
            stage: found_stage(reading, at, token),
        }),
        [first, rest @ ..] => {
            let waiting = copy_waiting(alloc, rest)?;
            let stage = resumed_stage(first, at, token)?;
            Ok(Advance::Waits {
                hops,
                waiting,
                stage,
            })
        }
    }
}

/// A row of the module of that number was found.
pub(crate) fn found(
    alloc: Global,
    state: &State,
    at: u32,
    token: Token,
) -> Result<Advance, NoMemory>
    ensures { IfOk result (λ advance. advance ≡ found state.now at token) }
{
    let waiting = state.waiting.as_slice();
    found_with(alloc, &state.reading, state.hops, waiting, at, token)
}

fn resolved_with(
    alloc: Global,
    reading: &Option<Reading>,
    hops: u32,
    waiting: List<Waiting>,
    at: u32,
    token: Token,
) -> Result<Advance, NoMemory>
    ensures { IfOk result (λ advance. advance ≡ resolved_with reading.now hops waiting at token) }
{
    if is_definition(token.table) {
        return found_with(alloc, reading, hops, waiting.as_slice(), at, token);
    }
    Ok(Advance::Waits {
        hops,
        waiting,
        stage: first_stage(at, token),
    })
}

/// A step to another token, with what waits then.
fn hop_with(
    alloc: Global,
    state: &State,
    waiting: List<Waiting>,
    at: u32,
    token: Token,
) -> Result<Advance, NoMemory>
    ensures { IfOk result (λ advance. advance ≡ hop state.now waiting at token) }
{
    if state.hops >= MOST_HOPS {
        return Ok(ended(End::TooDeep));
    }
    resolved_with(alloc, &state.reading, state.hops + 1, waiting, at, token)
}

/// A step to another token.
pub(crate) fn hop(alloc: Global, state: &State, at: u32, token: Token) -> Result<Advance, NoMemory>
    ensures { IfOk result (λ advance. advance ≡ hop state.now state.now.waiting at token) }
{
    let waiting = copy_waiting(alloc, state.waiting.as_slice())?;
    hop_with(alloc, state, waiting, at, token)
}

/// A step to another token, for which one more waits.
pub(crate) fn hop_for(
    alloc: Global,
    state: &State,
    first: Waiting,
    at: u32,
    token: Token,
) -> Result<Advance, NoMemory>
    ensures { IfOk result (λ advance. advance ≡ hop state.now (first ∷ state.now.waiting) at token) }
{
    let waiting = with_waiting(alloc, state, first)?;
    hop_with(alloc, state, waiting, at, token)
}

/// A step to an assembly in which the type that is looked for stands: an exported type leads there.
pub(crate) fn hop_to(alloc: Global, state: &State, stage: TypeStage) -> Result<Advance, NoMemory>
    ensures { IfOk result (λ advance. advance ≡ hop_to state.now stage) }
{
    if state.hops >= MOST_HOPS {
        return Ok(ended(End::TooDeep));
    }
    let waiting = copy_waiting(alloc, state.waiting.as_slice())?;
    Ok(Advance::Waits {
        hops: state.hops + 1,
        waiting,
        stage: Stage::NamedType(stage),
    })
}
