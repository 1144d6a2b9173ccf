//! An actor does its commands in order.
ghost use Rattle.std.specs.Prelude.{◌≡◌, [], OnOk, length};
ghost use Rattle.cecil_top.specs.Acts.{acts_of};
ghost use Rattle.cecil_top.specs.Explains.{AreDone};
ghost use Rattle.cecil_top.specs.inner.Actors.{FitModules, HasRun, IsReady};
ghost use Rattle.cecil_top.specs.inner.Passes.{ExplainsSoFar, HasPasses};

use crate::command::do_command;
use crate::replacing::push_replaced;
use crate::said::{Said, token_made_at};
use cil_base::{List, NoMemory};
use job_text::Command;
use shared_module::{Decoder, Pass, SharedModule};
use std::alloc::Global;
use std::sync::Wait;

/// An actor: its number, the commands that it was given, those that it has done and what was said to them, its pass of
/// each module, and whether it lacked memory.
#[derive(Drop)]
pub(crate) struct Actor {
    pub(crate) number: u32,
    pub(crate) given: List<Command>,
    pub(crate) commands: List<Command>,
    pub(crate) said: List<Said>,
    pub(crate) passes: List<Option<Pass>>,
    pub(crate) short: bool,
}

/// Does all commands.
fn do_commands<R: Wait, G: Decoder>(
    rt: &R,
    alloc: Global,
    modules: &[SharedModule],
    actor: u32,
    given: &[Command],
    commands: &mut List<Command>,
    said: &mut List<Said>,
    passes: &mut List<Option<Pass>>,
    gate: &G,
) -> Result<(), NoMemory>
    requires passes { HasPasses modules.now actor passes.old }
    requires fit { FitModules modules.now given.now }
    requires none { (commands.old ≡ []) × (said.old ≡ []) }
    requires so_far { ExplainsSoFar modules.now actor [] passes.old }
    ensures passes { HasPasses modules.now actor passes.new }
    ensures done { OnOk result (AreDone (length modules.now) given.now commands.new said.new) }
    ensures explained { OnOk result (ExplainsSoFar modules.now actor (acts_of commands.new said.new)
        passes.new) }
{
    let mut made = List::new(alloc);
    let count = given.len() as u32;
    for place in 0..count {
        push_replaced(alloc, commands, &given[place as usize], made.as_slice())?;
        let command = &commands.as_slice()[place as usize];
        do_command(
            rt, alloc, modules, actor, place, command, said, passes, gate,
        )?;
        made.push(token_made_at(said.as_slice(), place))?;
    }
    Ok(())
}

/// Does all commands of an actor, which tells whether it lacked memory.
pub(crate) fn do_actor<R: Wait, G: Decoder>(
    rt: &R,
    alloc: Global,
    modules: &[SharedModule],
    actor: &mut Actor,
    gate: &G,
)
    requires { IsReady modules.now actor.old }
    ensures { HasRun modules.now actor.old actor.new }
{
    let done = do_commands(
        rt,
        alloc,
        modules,
        actor.number,
        actor.given.as_slice(),
        &mut actor.commands,
        &mut actor.said,
        &mut actor.passes,
        gate,
    );
    actor.short = done.is_err();
}
