//! Each caller in a thread of its own.
ghost use Rattle.std.specs.Prelude.{◌≡◌, ◌<◌, [], All, IfOk};
ghost use Rattle.std.specs.Thread.{IsSync};
ghost use Rattle.turn_lock.specs.Passes.{AreBack, IsPassOf};

use crate::opening::core_of;
use crate::script::Script;
use crate::turns::Shared;
use cil_base::{List, NoMemory};
use cil_outside::OpenGate;
use lazy_core::Core;
use shared_module::{Decoder, Pass, SharedModule};
use std::alloc::Global;
use std::sync::Wait;
use std::thread;
use std::thread::Threads;

/// Each caller does its commands; with their passes.
fn all_callers<R: Threads + Wait + Sync, M: Shared + Sync, G: Decoder + Sync>(
    rt: &R,
    alloc: Global,
    shared: &M,
    passes: List<Pass>,
    script: Script,
    gate: &G,
) -> Result<List<Pass>, NoMemory>
    requires { All (IsPassOf (M.lock shared.now)) passes }
    ensures { IfOk result (λ back. AreBack (M.lock shared.now) passes back) }
{
    let back = thread::map_vec(
        rt,
        passes.into_vec(),
        &|pass: Pass| -> Pass
            requires { IsSync R.row × IsSync M.row × IsSync G.row × IsPassOf (M.lock shared.now) pass }
            ensures { IsPassOf (M.lock shared.entry.now) result × (result.number ≡ pass.number) }
        { shared.does_all(rt, alloc, pass, script, gate) },
    )?;
    Ok(List::from_vec(back))
}

/// So many callers do their commands; the core after them.
pub fn in_threads<R: Threads + Wait + Sync, G: Decoder + Sync>(
    rt: &R,
    alloc: Global,
    core: Core,
    callers: u32,
    script: Script,
    gate: &G,
) -> Result<Core, NoMemory>
    requires callers { 0 < callers }
    requires empty { core.history ≡ [] }
{
    let (shared, passes) = SharedModule::open(alloc, core, callers)?;
    let back = all_callers(rt, alloc, &shared, passes, script, gate)?;
    Ok(shared.close(back))
}

/// How many entries the core of an image has, once so many callers did their commands; none where it is no image.
fn entries_after<R: Threads + Wait + Sync>(
    rt: &R,
    alloc: Global,
    bytes: &[u8],
    callers: u32,
    script: Script,
) -> Result<usize, NoMemory>
    requires { 0 < callers }
{
    let Some(core) = core_of(alloc, bytes)? else {
        return Ok(0);
    };
    let core = in_threads(rt, alloc, core, callers, script, &OpenGate)?;
    Ok(core.history().len())
}

/// As many images of these bytes, and as many callers for each, all at once; how many entries the histories then have.
pub fn over_all<R: Threads + Wait + Sync>(
    rt: &R,
    alloc: Global,
    bytes: &[u8],
    images: u32,
    callers: u32,
    script: Script,
) -> Result<usize, NoMemory>
    requires { 0 < callers }
{
    let counts = thread::map_indices(
        rt,
        alloc,
        images as usize,
        &|_: usize| -> usize
            requires { IsSync R.row × (0 < callers) }
        { entries_after(rt, alloc, bytes, callers, script).unwrap_or(0) },
    )?;
    Ok(
        counts
            .iter()
            .fold(0, |all: usize, count| all.saturating_add(*count)),
    )
}
