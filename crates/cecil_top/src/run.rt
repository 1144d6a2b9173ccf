//! All actors, each in a thread of its own where one can be started.
ghost use Rattle.std.specs.Prelude.{◌≡◌, ◌<◌, ℕ, List, All, IfOk, [], false, length, map};
ghost use Rattle.std.specs.Thread.{IsSync};
ghost use Rattle.turn_lock.specs.Passes.{LockValue};
ghost use Rattle.job_text.specs.Runnable.{AreRunnable};
ghost use Rattle.lazy_core.specs.Slots.{CoreState};
ghost use Rattle.cecil_top.specs.Explains.{Explains};
ghost use Rattle.cecil_top.specs.Untouched.{AreUntouched};
ghost use Rattle.cecil_top.specs.declared.actor.Actor.{Actor};
ghost use Rattle.cecil_top.specs.inner.Actors.{AllHaveRun, HasRun, IsReady};
ghost use Rattle.cecil_top.specs.inner.Ends.{record_of};
ghost use Rattle.cecil_top.specs.inner.Opens.{AllAreNew};

use crate::actor::{Actor, do_actor};
use crate::closing::{close_all, keep_all};
use crate::opening::{new_actors, open_all};
use crate::record::RunRecord;
use cil_base::{List, NoMemory};
use job_text::Command;
use lazy_core::Core;
use shared_module::{Decoder, SharedModule};
use std::alloc::Global;
use std::sync::Wait;
use std::thread;
use std::thread::Threads;

/// Modules that actors share, for threads, which then need to know of them that they may be shared, and no more.
trait Serves {
    ghost modules: { Self → List (LockValue (List ℕ)) };

    /// Does all commands of an actor.
    fn serve<R: Wait, G: Decoder>(&self, rt: &R, alloc: Global, actor: &mut Actor, gate: &G)
        requires { IsReady (modules self.now) actor.old }
        ensures { HasRun (modules self.now) actor.old actor.new };
}

impl Serves for List<SharedModule> {
    ghost modules = { λ m. m };

    fn serve<R: Wait, G: Decoder>(&self, rt: &R, alloc: Global, actor: &mut Actor, gate: &G) {
        do_actor(rt, alloc, self.as_slice(), actor, gate)
    }
}

/// Runs all actors.
fn do_actors<R: Threads + Wait + Sync, M: Serves + Sync, G: Decoder + Sync>(
    rt: &R,
    alloc: Global,
    modules: &M,
    actors: &mut [Actor],
    gate: &G,
)
    requires some { 0 < length actors.old }
    requires ready { All (IsReady (M.modules modules.now)) actors.old }
    ensures { AllHaveRun (M.modules modules.now) actors.old actors.new }
{
    let threads = actors.len();
    thread::for_each_mut(
        rt,
        actors,
        threads,
        &|_: usize, actor: &mut Actor|
            requires { IsSync R.row × IsSync M.row × IsSync G.row × IsReady (M.modules modules.now) actor.now }
            ensures { HasRun (M.modules modules.entry.now) actor.entry.now actor.exit.now }
        { modules.serve(rt, alloc, actor, gate) },
    );
}

/// Whether some actor lacked memory.
fn any_short(actors: &[Actor]) -> bool
    ensures { result ≡ false → All (λ a. a.short ≡ false) actors.now }
{
    for actor in actors {
        if actor.short {
            return true;
        }
    }
    false
}

/// Shares the cores among at least one actor, runs all, and closes the modules.
fn run_over<R: Threads + Wait + Sync, G: Decoder + Sync>(
    rt: &R,
    alloc: Global,
    cores: List<Core>,
    actors: &mut [Actor],
    gate: &G,
) -> Result<List<Core>, NoMemory>
    requires some { 0 < length actors.old }
    requires runnable { AreRunnable (length cores) (map (λ (a : Actor). a.given) actors.old) }
    requires untouched { AreUntouched cores }
    requires new { AllAreNew [] (map (λ (a : Actor). a.given) actors.old) actors.old (length actors.old) }
    ensures { IfOk result (λ ends. Explains (map (λ (core : CoreState). core.bytes) cores)
        (map (λ (a : Actor). a.given) actors.old) (record { cores = ends; actors = map record_of actors.new })) }
{
    let modules = open_all(alloc, cores, actors)?;
    do_actors(rt, alloc, &modules, actors, gate);
    if any_short(actors) {
        return Err(NoMemory);
    }
    close_all(alloc, modules, actors)
}

/// Runs commands, a list for each actor, over cores to which nothing was done. Each actor does its commands in order, in
/// a thread of its own where one can be started; it may wait for the others. The record explains the run: what was
/// answered to each command, and the history of each module by which it was answered. Without actors the cores are not
/// shared. `NoMemory` comes where an actor or the run itself lacks memory.
pub fn run_job<R: Threads + Wait + Sync, G: Decoder + Sync>(
    rt: &R,
    alloc: Global,
    cores: List<Core>,
    given: List<List<Command>>,
    gate: &G,
) -> Result<RunRecord, NoMemory>
    requires runnable { AreRunnable (length cores) given }
    requires untouched { AreUntouched cores }
    ensures { IfOk result (Explains (map (λ (core : CoreState). core.bytes) cores) given) }
{
    if given.is_empty() {
        return Ok(RunRecord {
            cores,
            actors: List::new(alloc),
        });
    }
    let mut actors = new_actors(alloc, given)?.into_vec();
    let cores = run_over(rt, alloc, cores, actors.as_mut_slice(), gate)?;
    let actors = keep_all(alloc, List::from_vec(actors))?;
    Ok(RunRecord { cores, actors })
}
