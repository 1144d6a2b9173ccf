//! How a run begins: an actor for each list of commands, and a pass of each module for each actor.
ghost use Rattle.std.specs.Prelude.{◌≡◌, ◌<◌, ◌≤◌, [], IfOk, List, OnOk, length};
ghost use Rattle.turn_lock.specs.Passes.{fresh_passes};
ghost use Rattle.job_text.specs.declared.command.Command.{Command};
ghost use Rattle.cecil_top.specs.Untouched.{AreUntouched};
ghost use Rattle.cecil_top.specs.inner.Opens.{AllAreNew, AreHandedOut, AreOpened, with_pass};

use crate::actor::Actor;
use cil_base::{List, NoMemory};
use job_text::Command;
use lazy_core::Core;
use shared_module::{Pass, SharedModule};
use std::alloc::Global;

/// A new actor for each list of commands, without passes.
pub(crate) fn new_actors(
    alloc: Global,
    mut given: List<List<Command>>,
) -> Result<List<Actor>, NoMemory>
    requires { length given ≤ 64 }
    ensures { IfOk result (λ actors. AllAreNew [] given actors (length given)) }
{
    let mut actors = List::new(alloc);
    let count = given.len() as u32;
    for number in 0..count {
        let commands = given.remove(0);
        actors.push(Actor {
            number,
            given: commands,
            commands: List::new(alloc),
            said: List::new(alloc),
            passes: List::new(alloc),
            short: false,
        })?;
    }
    Ok(actors)
}

/// Gives an actor one pass more.
fn give_pass(actor: &mut Actor, pass: Pass) -> Result<(), NoMemory>
    ensures { OnOk result (actor.new ≡ with_pass pass actor.old) }
{
    actor.passes.push(Some(pass))
}

/// Gives each actor its pass.
fn hand_out(actors: &mut [Actor], mut passes: List<Pass>) -> Result<(), NoMemory>
    requires { length passes ≡ length actors.old }
    ensures { OnOk result (AreHandedOut passes actors.old actors.new (length actors.old)) }
{
    let count = actors.len();
    for at in 0..count {
        let pass = passes.remove(0);
        give_pass(&mut actors[at], pass)?;
    }
    Ok(())
}

/// Shares one core.
fn open_one(alloc: Global, core: Core, actors: &mut [Actor]) -> Result<SharedModule, NoMemory>
    requires callers { (0 < length actors.old) × (length actors.old ≤ 64) }
    requires untouched { core.history ≡ [] }
    ensures shared { IfOk result (λ l. (l.callers ≡ length actors.old) × (l.base ≡ core.bytes)) }
    ensures actors { IfOk result (λ l. AreHandedOut (fresh_passes l) actors.old actors.new (length actors.old)) }
{
    let callers = actors.len() as u32;
    let (shared, passes) = SharedModule::open(alloc, core, callers)?;
    hand_out(actors, passes)?;
    Ok(shared)
}

/// Shares all cores, in order.
pub(crate) fn open_all(
    alloc: Global,
    mut cores: List<Core>,
    actors: &mut [Actor],
) -> Result<List<SharedModule>, NoMemory>
    requires callers { (0 < length actors.old) × (length actors.old ≤ 64) }
    requires few { length cores ≤ 16 }
    requires untouched { AreUntouched cores }
    ensures shared { IfOk result (λ modules. AreOpened cores (length actors.old) modules (length cores)) }
    ensures actors { IfOk result (λ modules. (given : List (List Command)) → AllAreNew [] given actors.old (length actors.old)
        → AllAreNew modules given actors.new (length actors.old)) }
{
    let mut modules = List::new(alloc);
    let count = cores.len();
    for _at in 0..count {
        let core = cores.remove(0);
        let shared = open_one(alloc, core, actors)?;
        modules.push(shared)?;
    }
    Ok(modules)
}
