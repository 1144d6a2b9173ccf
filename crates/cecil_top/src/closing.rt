//! How a run ends: the passes come out of the actors, and the modules are closed.
ghost use Rattle.std.specs.Prelude.{◌≡◌, ◌≤◌, ℕ, IfOk, OnOk, Some, length, map, slice_get};
ghost use Rattle.cecil_top.specs.declared.actor.Actor.{Actor};
ghost use Rattle.cecil_top.specs.inner.Ends.{AllAreClosed, AllAreSameFrom, AllCanClose, AreGiven, AreWithout, CanClose, IsClosed, record_of, without_pass};
ghost use Rattle.cecil_top.specs.inner.Passes.{HasPassAt};

use crate::actor::Actor;
use crate::passes::take_pass;
use crate::record::ActorRecord;
use cil_base::{List, NoMemory};
use lazy_core::Core;
use shared_module::{Pass, SharedModule};
use std::alloc::Global;

/// Takes the pass of a module out of an actor.
fn take_from(actor: &mut Actor, place: u32) -> Pass
    requires { HasPassAt actor.old.passes place }
    ensures pass { slice_get actor.old.passes place ≡ Some (Some result) }
    ensures rest { actor.new ≡ without_pass place actor.old }
{
    take_pass(&mut actor.passes, place)
}

/// Takes the passes of a module out of all actors, in order.
fn take_all(alloc: Global, actors: &mut [Actor], place: u32) -> Result<List<Pass>, NoMemory>
    requires { (i : ℕ) (a : Actor) → slice_get actors.old i ≡ Some a → HasPassAt a.passes place }
    ensures passes { IfOk result (λ passes. AreGiven place actors.old passes (length actors.old)) }
    ensures rest { OnOk result (AreWithout place actors.old actors.new (length actors.old)) }
{
    let count = actors.len();
    let mut passes = Vec::with_capacity(alloc, count)?;
    for at in 0..count {
        let pass = take_from(&mut actors[at], place);
        passes.push_reserved(pass);
    }
    Ok(List::from_vec(passes))
}

/// Closes one module.
fn close_one(
    alloc: Global,
    shared: SharedModule,
    actors: &mut [Actor],
    place: u32,
) -> Result<Core, NoMemory>
    requires { CanClose shared place actors.old }
    ensures core { IfOk result (IsClosed shared place actors.old) }
    ensures rest { OnOk result (AreWithout place actors.old actors.new (length actors.old)) }
{
    let passes = take_all(alloc, actors, place)?;
    Ok(shared.close(passes))
}

/// Closes all modules, in order.
pub(crate) fn close_all(
    alloc: Global,
    mut modules: List<SharedModule>,
    actors: &mut [Actor],
) -> Result<List<Core>, NoMemory>
    requires all { AllCanClose modules actors.old }
    requires few { length modules ≤ 16 }
    ensures cores { IfOk result (λ cores. AllAreClosed modules actors.old cores (length modules)) }
    ensures actors { OnOk result (AllAreSameFrom (length modules) actors.old actors.new) }
{
    let mut cores = List::new(alloc);
    let count = modules.len() as u32;
    for place in 0..count {
        let shared = modules.remove(0);
        let core = close_one(alloc, shared, actors, place)?;
        cores.push(core)?;
    }
    Ok(cores)
}

/// What is kept of an actor.
fn kept(actor: Actor) -> ActorRecord
    ensures { result ≡ record_of actor }
{
    let Actor { commands, said, .. } = actor;
    ActorRecord { commands, said }
}

/// What is kept of all actors, in order.
pub(crate) fn keep_all(
    alloc: Global,
    mut actors: List<Actor>,
) -> Result<List<ActorRecord>, NoMemory>
    ensures { IfOk result (λ records. records ≡ map record_of actors) }
{
    let mut records = List::new(alloc);
    let count = actors.len();
    for _at in 0..count {
        let actor = actors.remove(0);
        records.push(kept(actor))?;
    }
    Ok(records)
}
