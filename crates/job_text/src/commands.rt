//! The commands of an actor.

ghost use Rattle.std.specs.Prelude.{◌≡◌, ◌≤◌, IfOk, [], length, map};
ghost use Rattle.job_text.specs.Answers.{AnswersCommands};
ghost use Rattle.job_text.specs.Commands.{given_command, command_of, commands_from, of_form, of_values};
ghost use Rattle.job_text.specs.Forms.{seen_form};
ghost use Rattle.serde_json.specs.View.{view};

use crate::args::Args;
use crate::arguments::read_arguments;
use crate::command::Command;
use crate::edit_of::edit_of;
use crate::form::{Form, form_named};
use crate::query_of::query_of;
use crate::values::{given_list, given_text};
use crate::word::Word;
use cil_base::{List, NoMemory};
use serde_json::Value;
use std::alloc::Global;

/// The command of a word with these arguments.
#[tactic(auto, unfolding(crate::specs::Commands::command_of))]
fn command_of(alloc: Global, word: Word, args: Args) -> Option<Command>
    ensures { result ≡ command_of word args }
{
    let home = args.module;
    match word {
        Word::Ask(question) => Some(Command::Query {
            module: home,
            query: query_of(question, args),
        }),
        Word::Change(change) => {
            let edit = edit_of(alloc, change, args)?;
            Some(Command::Edit { module: home, edit })
        }
        Word::Resolve => Some(Command::Resolve {
            module: home,
            token: args.token,
        }),
        Word::Attribute => Some(Command::Attribute {
            module: home,
            token: args.token,
        }),
    }
}

/// The command of a form with the values that follow its name.
#[tactic(auto, unfolding(crate::specs::Commands::of_form))]
fn of_form(
    alloc: Global,
    modules: u32,
    before: &[Command],
    values: &[Value],
    form: Form,
) -> Result<Option<Command>, NoMemory>
    ensures { IfOk result (λ command. command ≡ of_form modules before.now (map view values.now) (seen_form form)) }
{
    let mut args = Args::new(alloc);
    if read_arguments(alloc, modules, before, form.kinds, &mut args, values)? {
        Ok(command_of(alloc, form.word, args))
    } else {
        Ok(None)
    }
}

/// The command of a list's values: its name, and then its arguments.
#[tactic(auto, unfolding(crate::specs::Commands::of_values))]
fn of_values(
    alloc: Global,
    modules: u32,
    before: &[Command],
    values: &[Value],
) -> Result<Option<Command>, NoMemory>
    ensures { IfOk result (λ command. command ≡ of_values modules before.now (map view values.now)) }
{
    let [name, arguments @ ..] = values else {
        return Ok(None);
    };
    let Some(name) = given_text(name) else {
        return Ok(None);
    };
    match form_named(name) {
        Some(form) => of_form(alloc, modules, before, arguments, form),
        None => Ok(None),
    }
}

/// The command that a value gives, after the actor's commands before. None exactly where it gives none.
#[tactic(auto, unfolding(crate::specs::Commands::given_command))]
pub(crate) fn given_command(
    alloc: Global,
    modules: u32,
    before: &[Command],
    value: &Value,
) -> Result<Option<Command>, NoMemory>
    ensures { IfOk result (λ command. command ≡ given_command modules before.now (view value.now)) }
{
    match given_list(value) {
        Some(values) => of_values(alloc, modules, before, values),
        None => Ok(None),
    }
}

/// Why an actor has no commands.
#[derive(Clone, Copy)]
pub enum ActorFail {
    /// The value of this number is no command.
    NotACommand(u32),
    NoMemory,
}

impl From<NoMemory> for ActorFail {
    ghost use Rattle.job_text.specs.declared.commands.ActorFail.TheVariants.{NoMemory as no_memory};

    ghost from_gives = { λ _ fail. fail ≡ no_memory };

    fn from(_error: NoMemory) -> ActorFail {
        ActorFail::NoMemory
    }
}

/// The commands of an actor, or the number of the first value that is none.
#[tactic(auto, using(crate::proofs::CommandLemmas::command_next, crate::proofs::CommandLemmas::command_none, crate::proofs::CommandLemmas::commands_over))]
pub(crate) fn commands_in(
    alloc: Global,
    modules: u32,
    values: &[Value],
) -> Result<List<Command>, ActorFail>
    requires { length values.now ≤ 4096 }
    ensures { AnswersCommands result (commands_from modules [] (map view values.now)) }
{
    let mut commands = List::new(alloc);
    for value in values {
        match given_command(alloc, modules, commands.as_slice(), value)? {
            Some(command) => commands.push(command)?,
            None => return Err(ActorFail::NotACommand(commands.len() as u32)),
        }
    }
    Ok(commands)
}
