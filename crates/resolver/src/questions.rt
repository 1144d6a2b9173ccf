//! The next question, and what its reply leads to.

ghost use Rattle.std.specs.Prelude.{◌≡◌, IfOk};
ghost use Rattle.resolver.specs.Machine.{after_fitting, after_reply, after_unfit, after_unfit_type};
ghost use Rattle.resolver.specs.Questions.{end_next, state_next};

use crate::assemblies::after_other_assembly;
use crate::attributes::after_attribute;
use crate::enum_widths::after_enum;
use crate::fits::{is_missing, reply_fits};
use crate::found::stopped;
use crate::members::after_member;
use crate::named_types::{FIRST_ASSEMBLY, TypeStage, after_named_type};
use crate::next::Next;
use crate::references::after_reference;
use crate::state::{Advance, End, Stage, State};
use cil_base::NoMemory;
use node_model::{Query, Reply};
use std::alloc::Global;

fn end_next(alloc: Global, end: &End) -> Result<Next, NoMemory>
    ensures { IfOk result (λ next. next ≡ end_next end.now) }
{
    match end {
        End::Found { at, token } => Ok(Next::Found {
            module: *at,
            token: *token,
        }),
        End::Attribute(value) => Ok(Next::Attribute(value.copy()?)),
        End::BadAttribute => Ok(Next::BadAttribute),
        End::Unresolved(name) => Ok(Next::Unresolved(name.copy()?)),
        End::TooDeep => Ok(Next::TooDeep),
        End::Stopped(reply) => Ok(Next::Stopped(reply.get().copy(alloc)?)),
        End::NoReference(token) => Ok(Next::Stopped(Reply::WrongKind(*token))),
    }
}

/// The next question, or the end.
#[tactic(auto, unfolding(crate::specs::Questions::state_next))]
pub(crate) fn state_next(alloc: Global, state: &State) -> Result<Next, NoMemory>
    ensures { IfOk result (λ next. next ≡ state_next state.now) }
{
    match &state.stage {
        Stage::Reference(stage) => stage.question(),
        Stage::NamedType(stage) => stage.question(state),
        Stage::Member(stage) => stage.question(),
        Stage::Attribute(stage) => stage.question(state),
        Stage::EnumType(stage) => stage.question(state),
        Stage::Ended(end) => end_next(alloc, end),
    }
}

/// A reply that fits the question, by the stage.
fn after_fitting(alloc: Global, state: &State, reply: &Reply) -> Result<Advance, NoMemory>
    ensures { IfOk result (λ advance. advance ≡ after_fitting state.now state.now.stage reply.now) }
{
    match &state.stage {
        Stage::Reference(stage) => after_reference(alloc, state, stage, reply),
        Stage::NamedType(stage) => after_named_type(alloc, state, stage, reply),
        Stage::Member(stage) => after_member(alloc, state, stage, reply),
        Stage::Attribute(stage) => after_attribute(alloc, state, stage, reply),
        Stage::EnumType(stage) => after_enum(alloc, state, stage, reply),
        Stage::Ended(_) => stopped(alloc, reply),
    }
}

/// Any other reply about a type that is looked for by its name.
fn after_unfit_type(alloc: Global, stage: &TypeStage, reply: &Reply) -> Result<Advance, NoMemory>
    ensures { IfOk result (λ advance. advance ≡ after_unfit_type stage.now reply.now) }
{
    match stage {
        TypeStage::Assembly {
            left,
            name,
            wanted,
            forwards,
        } => {
            if is_missing(FIRST_ASSEMBLY, reply) {
                return after_other_assembly(*left, name, wanted, *forwards);
            }
            stopped(alloc, reply)
        }
        _ => stopped(alloc, reply),
    }
}

/// Any other reply.
fn after_unfit(alloc: Global, stage: &Stage, reply: &Reply) -> Result<Advance, NoMemory>
    ensures { IfOk result (λ advance. advance ≡ after_unfit stage.now reply.now) }
{
    match stage {
        Stage::NamedType(stage) => after_unfit_type(alloc, stage, reply),
        _ => stopped(alloc, reply),
    }
}

/// What the reply to a question leads to.
pub(crate) fn after_reply(
    alloc: Global,
    state: &State,
    query: &Query,
    reply: &Reply,
) -> Result<Advance, NoMemory>
    ensures { IfOk result (λ advance. advance ≡ after_reply state.now query.now reply.now) }
{
    if reply_fits(query, reply) {
        return after_fitting(alloc, state, reply);
    }
    after_unfit(alloc, &state.stage, reply)
}
