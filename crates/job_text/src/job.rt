ghost use Rattle.std.specs.Prelude.{◌≡◌, IfOk};

use crate::command::{Command, copy_commands};
use cil_base::{Bytes, List, NoMemory};
use std::alloc::Global;
use std::marker::Model;

/// What a job says: the names of the images that are its modules, the commands of each actor in order, and the images
/// that are written at its end. The names of the modules are UTF-8.
#[derive(Drop)]
pub struct Job {
    pub modules: List<Bytes>,
    pub actors: List<List<Command>>,
    pub writes: List<Write>,
}

impl Model for Job {
    ghost use Rattle.std.specs.Prelude.{IsUtf8};
    ghost use Rattle.std.specs.List.{All};
    ghost use Rattle.std.specs.Coded.{codes};
    ghost use Rattle.sig_tree.specs.contracts.tree.TypeSig as types;
    ghost use Rattle.job_text.specs.Parts.{Job};

    ghost Value = { Job };

    ghost coded = { Prim.hlevel (codes, types.the_row.coded) };

    ghost view = { λ j. record { modules = j.modules; actors = j.actors; writes = j.writes } };

    ghost invariant = { λ j. All IsUtf8 j.modules };

    ghost inverse = { λ j. record { modules = j.modules; actors = j.actors; writes = j.writes } };
}

/// An image that is written: the number of its module, and the name that it gets, which is UTF-8.
#[derive(Drop)]
pub struct Write {
    pub module: u32,
    pub name: Bytes,
}

impl Model for Write {
    ghost use Rattle.std.specs.Prelude.{IsUtf8};
    ghost use Rattle.job_text.specs.Parts.{Write};

    ghost Value = { Write };

    ghost view = { λ w. record { «module» = w.«module»; name = w.name } };

    ghost invariant = { λ w. IsUtf8 w.name };

    ghost inverse = { λ w. record { «module» = w.«module»; name = w.name } };
}

/// Why a text is no job. They are tried in this order.
#[derive(Clone, Copy, Debug, PartialEq, Eq)]
pub enum JobRefusal {
    /// It is no JSON.
    NotJson,
    /// Its value has not the form of a job.
    Shape,
    /// The first count that passes its limit: of modules, of actors, of writes, or of an actor's commands.
    OverLimit(u64),
    /// The first value in the place of a command that is none, by the numbers of the actor and of the command.
    NotACommand { actor: u32, command: u32 },
}

/// Why there is no job.
#[derive(Clone, Copy, Debug, PartialEq, Eq)]
pub enum JobFail {
    /// The text is none.
    Refused(JobRefusal),
    NoMemory,
}

impl From<NoMemory> for JobFail {
    ghost use Rattle.job_text.specs.declared.job.JobFail.TheVariants.{NoMemory as no_memory};

    ghost from_gives = { λ _ fail. fail ≡ no_memory };

    fn from(_error: NoMemory) -> JobFail {
        JobFail::NoMemory
    }
}

impl Write {
    /// An equal write of its own.
    pub fn copy(&self) -> Result<Write, NoMemory>
        ensures { IfOk result (λ copy. copy ≡ self.now) }
    {
        let name = self.name.copy()?;
        Ok(Write {
            module: self.module,
            name,
        })
    }
}

/// Equal names of their own.
fn copy_names(alloc: Global, names: &List<Bytes>) -> Result<List<Bytes>, NoMemory>
    ensures { IfOk result (λ copy. copy ≡ names.now) }
{
    let mut all = List::new(alloc);
    for name in names.as_slice() {
        all.push(name.copy()?)?;
    }
    Ok(all)
}

/// Equal lists of commands of their own.
fn copy_actors(alloc: Global, actors: &List<List<Command>>) -> Result<List<List<Command>>, NoMemory>
    ensures { IfOk result (λ copy. copy ≡ actors.now) }
{
    let mut all = List::new(alloc);
    for commands in actors.as_slice() {
        all.push(copy_commands(alloc, commands)?)?;
    }
    Ok(all)
}

/// Equal writes of their own.
fn copy_writes(alloc: Global, writes: &List<Write>) -> Result<List<Write>, NoMemory>
    ensures { IfOk result (λ copy. copy ≡ writes.now) }
{
    let mut all = List::new(alloc);
    for write in writes.as_slice() {
        all.push(write.copy()?)?;
    }
    Ok(all)
}

impl Job {
    /// An equal job of its own.
    pub fn copy(&self, alloc: Global) -> Result<Job, NoMemory>
        ensures { IfOk result (λ copy. copy ≡ self.now) }
    {
        let modules = copy_names(alloc, &self.modules)?;
        let actors = copy_actors(alloc, &self.actors)?;
        let writes = copy_writes(alloc, &self.writes)?;
        Ok(Job {
            modules,
            actors,
            writes,
        })
    }
}
