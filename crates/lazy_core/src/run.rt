ghost use Rattle.std.specs.Prelude.{◌≡◌, IfOk, OnOk, length};
ghost use Rattle.lazy_core.specs.Run.{answered, history_then, publish_answer, publish_history, run};
ghost use Rattle.lazy_core.specs.Run.{query_want, want_of, want_of_try, want_then, wanted_by};
ghost use Rattle.lazy_core.specs.Steps.{history_tried, peeked, tried};
ghost use Rattle.lazy_core.specs.Wants.{AllMayPublish, MayPublish};

use crate::lazy::Core;
use crate::publish::fill;
use crate::step::{Step, StepAnswer};
use crate::wanted::{Tried, Wanted};
use crate::wants::Wants;
use cil_base::{List, NoMemory};
use graph_query::Peek;
use node_model::{By, Edit, Key, Query, Why};
use std::alloc::Global;

/// What a caller wants that needs this key for a query.
pub(crate) fn query_want(
    alloc: Global,
    core: &Core,
    by: By,
    query: &Query,
    key: &Key,
) -> Result<Wanted, NoMemory>
    ensures { IfOk result (λ want. want ≡ query_want by query.now core.now.history key.now) }
{
    let query = query.copy(alloc)?;
    Ok(Wanted {
        by,
        point: core.history().len() as u64,
        why: Why::Query(query),
        key: *key,
    })
}

/// What a caller wants that was given this answer to a query.
fn want_of(
    alloc: Global,
    core: &Core,
    by: By,
    query: &Query,
    peek: &Peek,
) -> Result<Option<Wanted>, NoMemory>
    ensures { IfOk result (λ want. want ≡ want_of by query.now core.now.history peek.now) }
{
    let Peek::Need(key) = peek else {
        return Ok(None);
    };
    Ok(Some(query_want(alloc, core, by, query, key)?))
}

/// What a caller wants that was given this answer to an edit.
fn want_of_try(core: &Core, by: By, tried: &Tried) -> Result<Option<Wanted>, NoMemory>
    ensures { IfOk result (λ want. want ≡ want_of_try by core.now.history tried.now) }
{
    let Tried::Need(keys) = tried else {
        return Ok(None);
    };
    let Some(key) = keys.as_slice().last() else {
        return Ok(None);
    };
    let why = Why::Keys(keys.copy()?);
    Ok(Some(Wanted {
        by,
        point: core.history().len() as u64,
        why,
        key: *key,
    }))
}

/// What the step of a number left wanted.
fn wanted_by(alloc: Global, wants: &[Option<Wanted>], of: u32) -> Result<Option<Wanted>, NoMemory>
    ensures { IfOk result (λ want. want ≡ wanted_by wants.now of) }
{
    match wants.get(of as usize) {
        Some(Some(want)) => Ok(Some(want.copy(alloc)?)),
        Some(None) => Ok(None),
        None => Ok(None),
    }
}

/// Publishes what is wanted, if anything, with the slot that the image gives.
fn publish(alloc: Global, core: &mut Core, want: Option<Wanted>) -> Result<StepAnswer, NoMemory>
    requires { MayPublish core.old.bytes core.old.history want }
    ensures answer { IfOk result (λ answer. answer ≡ publish_answer core.old.bytes core.old.history want) }
    ensures history { OnOk result (core.new.history ≡ publish_history core.old.bytes core.old.history want) }
    ensures image { core.new.bytes ≡ core.old.bytes }
{
    let Some(wanted) = want else {
        return Ok(StepAnswer::Skipped);
    };
    Ok(StepAnswer::Published(fill(alloc, core, wanted)?))
}

/// Asks a query. Gives the answer, and what it leaves wanted.
fn take_peek(
    alloc: Global,
    core: &Core,
    by: By,
    query: &Query,
) -> Result<(StepAnswer, Option<Wanted>), NoMemory>
    ensures answer { IfOk result (λ taken. taken.0
        ≡ StepAnswer.Peek (peeked core.now.bytes core.now.history query.now)) }
    ensures want { IfOk result (λ taken. taken.1
        ≡ want_of by query.now core.now.history (peeked core.now.bytes core.now.history query.now)) }
{
    let peek = core.peek(alloc, query)?;
    let want = want_of(alloc, core, by, query, &peek)?;
    Ok((StepAnswer::Peek(peek), want))
}

/// Tries an edit. Gives the answer, and what it leaves wanted.
fn take_try(
    alloc: Global,
    core: &mut Core,
    by: By,
    edit: &Edit,
) -> Result<(StepAnswer, Option<Wanted>), NoMemory>
    ensures answer { IfOk result (λ taken. taken.0
        ≡ StepAnswer.Tried (tried core.old.bytes core.old.history edit.now)) }
    ensures want { IfOk result (λ taken. taken.1
        ≡ want_of_try by core.old.history (tried core.old.bytes core.old.history edit.now)) }
    ensures history { OnOk result (core.new.history
        ≡ history_tried by edit.now core.old.history (tried core.old.bytes core.old.history edit.now)) }
    ensures image { core.new.bytes ≡ core.old.bytes }
{
    let tried = core.try_edit(alloc, by, edit)?;
    let want = want_of_try(core, by, &tried)?;
    Ok((StepAnswer::Tried(tried), want))
}

/// Takes a step. Gives its answer, and what it leaves wanted.
#[tactic(auto, using(crate::proofs::RunLemmas::may_publish))]
fn take_step(
    alloc: Global,
    core: &mut Core,
    wants: &[Option<Wanted>],
    step: &Step,
) -> Result<(StepAnswer, Option<Wanted>), NoMemory>
    requires { AllMayPublish core.old.bytes core.old.history wants.now }
    ensures answer { IfOk result (λ taken. taken.0 ≡ answered core.old.bytes core.old.history wants.now step.now) }
    ensures want { IfOk result (λ taken. taken.1 ≡ want_then core.old.bytes core.old.history step.now) }
    ensures history { OnOk result (core.new.history ≡ history_then core.old.bytes core.old.history wants.now step.now) }
    ensures image { core.new.bytes ≡ core.old.bytes }
{
    match step {
        Step::Peek { by, query } => take_peek(alloc, core, *by, query),
        Step::TryEdit { by, edit } => take_try(alloc, core, *by, edit),
        Step::Publish { of } => {
            let answer = publish(alloc, core, wanted_by(alloc, wants, *of)?)?;
            Ok((answer, None))
        }
    }
}

/// Takes steps by any callers on a core, one after the other, and gives the core after them and what each answered. A
/// Peek is answered as by `Core::peek`, and a TryEdit as by `Core::try_edit`. A Publish fills the key that the step of
/// its number was told to need, as `Core::publish` does, for that step's caller, for its query or the keys of its edit,
/// and at the history's length when that step was answered; it is `Skipped` exactly where that step is no earlier one,
/// or was not told to need a key. `NoMemory` drops the core.
pub fn run_steps(
    alloc: Global,
    core: Core,
    steps: &List<Step>,
) -> Result<(Core, List<StepAnswer>), NoMemory>
    ensures history { IfOk result (λ out. out.0.history ≡ (run core.bytes core.history steps.now).history) }
    ensures image { IfOk result (λ out. out.0.bytes ≡ core.bytes) }
    ensures answers { IfOk result (λ out. out.1 ≡ (run core.bytes core.history steps.now).answers) }
    ensures count { IfOk result (λ out. length out.1 ≡ length steps.now) }
{
    let mut core = core;
    let mut answers = List::new(alloc);
    let mut wants = Wants::new(alloc);
    for step in steps.as_slice() {
        let (answer, want) = take_step(alloc, &mut core, wants.as_slice(), step)?;
        answers.push(answer)?;
        wants.push(want)?;
    }
    Ok((core, answers))
}
