//! The job of a text.

ghost use Rattle.std.specs.Prelude.{◌≡◌, ◌≤◌, IfOk, IsUtf8, None, [], length, map};
ghost use Rattle.std.specs.List.{All};
ghost use Rattle.job_text.specs.Answers.{AnswersJob, AnswersActors, IsJobOf};
ghost use Rattle.job_text.specs.Job.{actors_from, given_job, job_of_parts, with_actors};
ghost use Rattle.job_text.specs.Limits.{long_actor, over_limit};
ghost use Rattle.job_text.specs.Runnable.{AreRunnable};
ghost use Rattle.job_text.specs.Shape.{given_name};
ghost use Rattle.job_text.specs.declared.job.JobFail.TheVariants as fails;
ghost use Rattle.job_text.specs.declared.job.JobRefusal.TheVariants as refusals;
ghost use Rattle.serde_json.specs.View.{view};

use crate::command::Command;
use crate::commands::{ActorFail, commands_in};
use crate::job::{Job, JobFail, JobRefusal};
use crate::shape::{is_job, items, member_items};
use crate::token::MOST_COMMANDS;
use crate::values::given_text;
use crate::write::writes_in;
use cil_base::{Bytes, List, NoMemory};
use serde_json::Value;
use std::alloc::Global;

/// The most modules of a job, and the most images that it writes.
const MOST_IMAGES: usize = 16;

/// The most actors of a job.
const MOST_ACTORS: usize = 64;

/// The first number of an actor's commands that passes its limit.
#[tactic(auto, unfolding(crate::specs::Limits::long_actor))]
fn long_actor(actors: &[Value]) -> Option<usize>
    ensures { result ≡ long_actor (map view actors.now) }
{
    for actor in actors {
        let count = items(actor).len();
        if (MOST_COMMANDS as usize) < count {
            return Some(count);
        }
    }
    None
}

/// The first count that passes its limit.
#[tactic(auto, unfolding(crate::specs::Limits::over_limit))]
fn over_limit(modules: usize, actors: &[Value], writes: usize) -> Option<usize>
    ensures first { result ≡ over_limit modules (map view actors.now) writes }
    ensures images { result ≡ None → modules ≤ 16 }
    ensures actors { result ≡ None → length actors.now ≤ 64 }
    ensures commands { result ≡ None → long_actor (map view actors.now) ≡ None }
{
    if MOST_IMAGES < modules {
        Some(modules)
    } else if MOST_ACTORS < actors.len() {
        Some(actors.len())
    } else if MOST_IMAGES < writes {
        Some(writes)
    } else {
        long_actor(actors)
    }
}

/// The text of a value, of its own; empty where it is none.
#[tactic(auto, unfolding(crate::specs::Shape::given_name))]
fn given_name(alloc: Global, value: &Value) -> Result<Bytes, NoMemory>
    ensures same { IfOk result (λ name. name ≡ given_name (view value.now)) }
    ensures text { IfOk result (λ name. IsUtf8 name) }
{
    let text = given_text(value).unwrap_or("");
    List::from_slice(alloc, text.as_bytes())
}

/// The texts of values, of their own.
fn names_in(alloc: Global, values: &[Value]) -> Result<List<Bytes>, NoMemory>
    ensures same { IfOk result (λ names. names ≡ map given_name (map view values.now)) }
    ensures texts { IfOk result (λ names. All IsUtf8 names) }
{
    let mut names = List::new(alloc);
    for value in values {
        names.push(given_name(alloc, value)?)?;
    }
    Ok(names)
}

/// The refusal of a value that is no command.
fn no_command(actor: u32, command: u32) -> JobFail
    ensures { result ≡ fails.Refused (refusals.NotACommand actor command) }
{
    JobFail::Refused(JobRefusal::NotACommand { actor, command })
}

/// The commands of each actor.
#[tactic(auto, using(crate::proofs::JobLemmas::actor_next, crate::proofs::JobLemmas::actor_none, crate::proofs::JobLemmas::actors_over, crate::proofs::JobLemmas::long_none))]
fn actors_in(alloc: Global, modules: u32, actors: &[Value]) -> Result<List<List<Command>>, JobFail>
    requires few { length actors.now ≤ 64 }
    requires short { long_actor (map view actors.now) ≡ None }
    ensures { AnswersActors result (actors_from modules [] (map view actors.now)) }
{
    let mut all = List::new(alloc);
    for actor in actors {
        match commands_in(alloc, modules, items(actor)) {
            Ok(commands) => all.push(commands)?,
            Err(ActorFail::NotACommand(command)) => return Err(no_command(
                all.len() as u32,
                command,
            )),
            Err(ActorFail::NoMemory) => return Err(JobFail::NoMemory),
        }
    }
    Ok(all)
}

/// The job of parts within the limits.
fn job_within(
    alloc: Global,
    modules: &[Value],
    actors: &[Value],
    writes: &[Value],
) -> Result<Job, JobFail>
    requires images { length modules.now ≤ 16 }
    requires few { length actors.now ≤ 64 }
    requires short { long_actor (map view actors.now) ≡ None }
    ensures { AnswersJob result (with_actors (map view modules.now) (map view writes.now) (actors_from (length modules.now) [] (map view actors.now))) }
{
    let actors = actors_in(alloc, modules.len() as u32, actors)?;
    let writes = writes_in(alloc, modules.len(), writes)?;
    let modules = names_in(alloc, modules)?;
    Ok(Job {
        modules,
        actors,
        writes,
    })
}

/// The job of the parts of a value that has the form of one.
#[tactic(auto, unfolding(crate::specs::Job::job_of_parts))]
fn job_of_parts(
    alloc: Global,
    modules: &[Value],
    actors: &[Value],
    writes: &[Value],
) -> Result<Job, JobFail>
    ensures { AnswersJob result (job_of_parts (map view modules.now) (map view actors.now) (map view writes.now)) }
{
    match over_limit(modules.len(), actors, writes.len()) {
        Some(count) => Err(JobFail::Refused(JobRefusal::OverLimit(count as u64))),
        None => job_within(alloc, modules, actors, writes),
    }
}

/// The job of a JSON value.
#[tactic(auto, unfolding(crate::specs::Job::given_job))]
fn given_job(alloc: Global, value: &Value) -> Result<Job, JobFail>
    ensures { AnswersJob result (given_job (view value.now)) }
{
    if !is_job(alloc, value)? {
        return Err(JobFail::Refused(JobRefusal::Shape));
    }
    job_of_parts(
        alloc,
        member_items(value, "modules"),
        member_items(value, "actors"),
        member_items(value, "write"),
    )
}

/// The job of a text, or the first refusal of it: that it is no JSON, that its value has not the form of a job, the first
/// count that passes its limit, the first value in the place of a command that is none. Each command of a job can be run: it
/// is a query or an edit of one of the job's modules.
pub fn job_of(alloc: Global, text: &[u8]) -> Result<Job, JobFail>
    ensures job { IsJobOf text.now result }
    ensures runnable { IfOk result (λ job. AreRunnable (length job.modules) job.actors) }
{
    match Value::from_slice(alloc, text) {
        Ok(value) => given_job(alloc, &value),
        Err(error) => {
            if error.is_memory() {
                Err(JobFail::NoMemory)
            } else {
                Err(JobFail::Refused(JobRefusal::NotJson))
            }
        }
    }
}
