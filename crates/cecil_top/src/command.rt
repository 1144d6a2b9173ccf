//! One command of one actor.
ghost use Rattle.std.specs.Prelude.{◌≡◌, ◌<◌, ◌≤◌, IfOk, OnOk, length};
ghost use Rattle.job_text.specs.declared.command.Command.TheVariants as commands;
ghost use Rattle.job_text.specs.Runnable.{CanRun};
ghost use Rattle.cecil_top.specs.declared.said.Said.TheVariants as saids;
ghost use Rattle.cecil_top.specs.inner.Passes.{HasPasses, IsPassStep, IsSaidStep};

use crate::following::follow;
use crate::passes::{put_pass, take_pass};
use crate::said::{Said, tell_answer, tell_edit, tell_resolution};
use cil_base::{List, NoMemory};
use job_text::Command;
use node_model::{Edit, Query};
use resolver::Ask;
use shared_module::{Answer, Decoder, Edited, Pass, SharedModule};
use std::alloc::Global;
use std::sync::Wait;

/// Asks a query of the module `home`, as the step of that number of the command of number `place`.
pub(crate) fn do_query<R: Wait, G: Decoder>(
    rt: &R,
    alloc: Global,
    modules: &[SharedModule],
    actor: u32,
    place: u32,
    step: u64,
    home: u32,
    query: &Query,
    passes: &mut List<Option<Pass>>,
    gate: &G,
) -> Result<Answer, NoMemory>
    requires passes { HasPasses modules.now actor passes.old }
    requires home { home < length modules.now }
    ensures passes { HasPasses modules.now actor passes.new }
    ensures step { IfOk result (λ a. IsPassStep modules.now actor
        (record { command = place; step = step; asked = commands.Query home query.now; said = saids.Query a })
        passes.old passes.new) }
{
    let pass = take_pass(passes, home);
    let (back, answer) = modules[home as usize].ask(rt, alloc, pass, place, step, query, gate);
    put_pass(passes, home, back);
    answer
}

/// Makes an edit of the module `home`, as the command of number `place`.
fn do_edit<R: Wait, G: Decoder>(
    rt: &R,
    alloc: Global,
    modules: &[SharedModule],
    actor: u32,
    place: u32,
    home: u32,
    edit: &Edit,
    passes: &mut List<Option<Pass>>,
    gate: &G,
) -> Result<Edited, NoMemory>
    requires passes { HasPasses modules.now actor passes.old }
    requires home { home < length modules.now }
    ensures passes { HasPasses modules.now actor passes.new }
    ensures step { IfOk result (λ x. IsPassStep modules.now actor
        (record { command = place; step = 0; asked = commands.Edit home edit.now; said = saids.Edit x })
        passes.old passes.new) }
{
    let pass = take_pass(passes, home);
    let (back, edited) = modules[home as usize].edit(rt, alloc, pass, place, edit, gate);
    put_pass(passes, home, back);
    edited
}

/// Does the command of number `place`, which is the next.
pub(crate) fn do_command<R: Wait, G: Decoder>(
    rt: &R,
    alloc: Global,
    modules: &[SharedModule],
    actor: u32,
    place: u32,
    command: &Command,
    said: &mut List<Said>,
    passes: &mut List<Option<Pass>>,
    gate: &G,
) -> Result<(), NoMemory>
    requires passes { HasPasses modules.now actor passes.old }
    requires few { length modules.now ≤ 16 }
    requires runs { CanRun (length modules.now) command.now }
    requires next { place ≡ length said.old }
    ensures passes { HasPasses modules.now actor passes.new }
    ensures said { OnOk result (IsSaidStep modules.now actor command.now said.old said.new passes.old passes.new) }
{
    match command {
        Command::Query { module, query } => {
            let answer = do_query(
                rt, alloc, modules, actor, place, 0, *module, query, passes, gate,
            );
            tell_answer(said, answer)
        }
        Command::Edit { module, edit } => {
            let edited = do_edit(
                rt, alloc, modules, actor, place, *module, edit, passes, gate,
            );
            tell_edit(said, edited)
        }
        Command::Resolve { module, token } => {
            let count = modules.len() as u32;
            let ask = Ask::resolve(alloc, count, *module, *token);
            let resolution = follow(rt, alloc, modules, actor, place, ask, passes, gate);
            tell_resolution(said, resolution)
        }
        Command::Attribute { module, token } => {
            let count = modules.len() as u32;
            let ask = Ask::attribute(alloc, count, *module, *token);
            let resolution = follow(rt, alloc, modules, actor, place, ask, passes, gate);
            tell_resolution(said, resolution)
        }
    }
}
