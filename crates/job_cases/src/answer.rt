use crate::edit::add_edit;
use crate::query::add_query;
use crate::text::{add_next, add_number, add_text, add_token};
use cil_base::{Bytes, List, NoMemory};
use job_text::{Command, Job, JobFail, JobRefusal, job_of};
use std::alloc::Global;

/// Adds a module's number and a word.
fn add_module(text: &mut Bytes, module: u32) -> Result<(), NoMemory> {
    text.push(b'm')?;
    add_number(text, module as u64)?;
    text.push(b' ')
}

/// Adds a command.
fn add_command(text: &mut Bytes, command: &Command) -> Result<(), NoMemory> {
    match command {
        Command::Query { module, query } => {
            add_module(text, *module)?;
            add_query(text, query)
        }
        Command::Edit { module, edit } => {
            add_module(text, *module)?;
            add_edit(text, edit)
        }
        Command::Resolve { module, token } => {
            add_module(text, *module)?;
            text.extend(b"resolve ")?;
            add_token(text, *token)
        }
        Command::Attribute { module, token } => {
            add_module(text, *module)?;
            text.extend(b"attribute ")?;
            add_token(text, *token)
        }
    }
}

/// Adds the commands of an actor.
fn add_actor(text: &mut Bytes, commands: &[Command]) -> Result<(), NoMemory> {
    text.extend(b" |")?;
    for command in commands {
        text.extend(b" ; ")?;
        add_command(text, command)?;
    }
    Ok(())
}

/// What is printed of a job.
fn job_text(alloc: Global, job: &Job) -> Result<Bytes, NoMemory> {
    let mut text = List::from_slice(alloc, b"job")?;
    for name in job.modules.as_slice() {
        text.push(b' ')?;
        add_text(&mut text, name.as_slice())?;
    }
    for actor in job.actors.as_slice() {
        add_actor(&mut text, actor.as_slice())?;
    }
    for write in job.writes.as_slice() {
        text.extend(b" > ")?;
        add_module(&mut text, write.module)?;
        add_text(&mut text, write.name.as_slice())?;
    }
    Ok(text)
}

/// What is printed of a refusal.
fn refusal_text(alloc: Global, refusal: JobRefusal) -> Result<Bytes, NoMemory> {
    match refusal {
        JobRefusal::NotJson => List::from_slice(alloc, b"not JSON"),
        JobRefusal::Shape => List::from_slice(alloc, b"not a job"),
        JobRefusal::OverLimit(count) => {
            let mut text = List::from_slice(alloc, b"over the limit")?;
            add_next(&mut text, count)?;
            Ok(text)
        }
        JobRefusal::NotACommand { actor, command } => {
            let mut text = List::from_slice(alloc, b"no command at ")?;
            add_number(&mut text, actor as u64)?;
            text.push(b'.')?;
            add_number(&mut text, command as u64)?;
            Ok(text)
        }
    }
}

/// What is printed of a copy of a job.
fn copied_text(alloc: Global, job: &Job) -> Result<Bytes, NoMemory> {
    let copy = job.copy(alloc)?;
    job_text(alloc, &copy)
}

/// What is printed of a job's text.
fn text_answer(alloc: Global, text: &[u8]) -> Result<Bytes, NoMemory> {
    match job_of(alloc, text) {
        Ok(job) => copied_text(alloc, &job),
        Err(JobFail::Refused(refusal)) => refusal_text(alloc, refusal),
        Err(JobFail::NoMemory) => Err(NoMemory),
    }
}

/// What is printed of a line.
pub fn answer(alloc: Global, line: &str) -> Result<Bytes, NoMemory> {
    let Some(digits) = line.strip_prefix("x/") else {
        return text_answer(alloc, line.as_bytes());
    };
    match hex::decode(alloc, digits) {
        Ok(bytes) => text_answer(alloc, bytes.as_slice()),
        Err(_) => List::from_slice(alloc, b"no case"),
    }
}
