//! What the program does.
ghost use Rattle.std.specs.Prelude.{◌≡◌, ◌≤◌, ◌↔◌, Err, IfErr, IfOk, length, map, string_bytes};
ghost use Rattle.cecil_inspect.specs.Inspect.{TellsFaults};
ghost use Rattle.cecil_top.specs.Tool.{IsRunOf, RunAnswers, RunCompletes, RunWrites, ToolAnswers, ToolCompletes, ToolWrites};
ghost use Rattle.cecil_top.specs.ToolWords.{AreNoWords};
ghost use Rattle.cecil_top.specs.Untouched.{AreUntouched};
ghost use Rattle.cecil_top.specs.inner.ToolSteps.{EndsRun, IsTextOf};
ghost use Rattle.cil_outside.specs.Causes.{Rose};
ghost use Rattle.job_text.specs.Runnable.{AreRunnable};
ghost use Rattle.lazy_core.specs.Slots.{CoreState};

use crate::images::open_images;
use crate::job_file::read_job;
use crate::run::run_job;
use crate::text::run_text;
use crate::words::job_asked;
use cecil_inspect::{Status, inspect, send};
use cil_base::{Bytes, List, NoMemory};
use cil_outside::{Folder, Outlet};
use job_text::{Command, Job};
use lazy_core::Core;
use node_read::image_is_not_refused;
use shared_module::Decoder;
use std::alloc::Global;
use std::sync::Wait;
use std::thread::Threads;

/// The text of a run of these commands, a list for each actor, over cores to which nothing was done.
fn text_of_run<R: Threads + Wait + Sync, G: Decoder + Sync>(
    rt: &R,
    alloc: Global,
    cores: List<Core>,
    given: List<List<Command>>,
    gate: &G,
) -> Result<Bytes, NoMemory>
    requires runnable { AreRunnable (length cores) given }
    requires untouched { AreUntouched cores }
    ensures { IfOk result (IsTextOf (map (λ (core : CoreState). core.bytes) cores) given) }
{
    let ran = run_job(rt, alloc, cores, given, gate)?;
    run_text(alloc, &ran)
}

/// The text of a run of the job of a name, or the status that it ends with before its text is written.
fn make_text<R: Threads + Wait + Sync, F: Folder, G: Decoder + Sync>(
    rt: &R,
    alloc: Global,
    name: &str,
    folder: &mut F,
    gate: &G,
) -> Result<Bytes, Status>
    ensures text { IfOk result (IsRunOf (F.files folder.old) name.now) }
    ensures status { IfErr result (λ status. EndsRun (F.files folder.old) name.now status) }
    ensures read { result ≡ Err Status.ReadFault → Rose (F.faults folder.old) (F.faults folder.new) }
    ensures files { F.files folder.new ≡ F.files folder.old }
    ensures later { F.faults folder.old ≤ F.faults folder.new }
{
    let job = read_job(alloc, folder, name)?;
    let cores = open_images(alloc, folder, job.modules.as_slice())?;
    let Job { actors, .. } = job;
    match text_of_run(rt, alloc, cores, actors, gate) {
        Ok(text) => Ok(text),
        Err(NoMemory) => Err(Status::NoMemory),
    }
}

/// Runs the job of a name.
fn run<R: Threads + Wait + Sync, F: Folder, O: Outlet, G: Decoder + Sync>(
    rt: &R,
    alloc: Global,
    name: &str,
    folder: &mut F,
    out: &mut O,
    gate: &G,
) -> Status
    ensures cause { RunAnswers (F.files folder.old) name.now result }
    ensures text { RunWrites (F.files folder.old) name.now (O.written out.old) (O.written out.new) result }
    ensures faults { TellsFaults (F.faults folder.old) (F.faults folder.new) (O.faults out.old) (O.faults out.new)
        result }
    ensures stay { (F.files folder.new ≡ F.files folder.old) × (O.puts out.new ≡ O.puts out.old) }
{
    match make_text(rt, alloc, name, folder, gate) {
        Ok(text) => send(alloc, out, text.as_slice()),
        Err(status) => status,
    }
}

/// Does what the words say, over this folder and this outlet. `run JOB` runs the job of a file: its images are read and
/// opened one after the other, its actors do their commands, each in a thread of its own where one can be started, and
/// the text is written: every answer with the point of its module's history at which it is true, and every history.
/// Other words are those of `inspect`. A run may wait for an actor.
pub fn tool<R: Threads + Wait + Sync, F: Folder, O: Outlet, G: Decoder + Sync>(
    rt: &R,
    alloc: Global,
    words: &[String],
    folder: &mut F,
    out: &mut O,
    gate: &G,
) -> Status
    // exactly where the words are not in the grammar
    ensures usage { result ≡ Status.Usage ↔ AreNoWords (map string_bytes words.now) }
    // the status that the files call for, exactly, but for faults and want of memory
    ensures cause { ToolAnswers (F.files folder.old) (map string_bytes words.now) result }
    // Ok of a run adds the text of a record that explains it; another status nothing, but for what a failed write left
    ensures text { ToolWrites (F.files folder.old) (map string_bytes words.now) (O.written out.old) (O.written out.new)
        result }
    ensures faults { TellsFaults (F.faults folder.old) (F.faults folder.new) (O.faults out.old) (O.faults out.new)
        result }
    // where no count of faults rose, a job that denotes one and whose images open gets Ok, but for want of memory
    ensures complete { (Rose (F.faults folder.old) (F.faults folder.new) → ⊥)
        → (Rose (O.faults out.old) (O.faults out.new) → ⊥)
        → ToolCompletes (F.files folder.old) (map string_bytes words.now) result }
    // the folder's files stay, and no file is put
    ensures stay { (F.files folder.new ≡ F.files folder.old) × (O.puts out.new ≡ O.puts out.old) }
{
    // for its law: an image has no refusal
    image_is_not_refused();
    match job_asked(words) {
        Some(name) => run(rt, alloc, name, folder, out, gate),
        None => inspect(alloc, words, folder, out),
    }
}
