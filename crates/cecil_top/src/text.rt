//! The text of a run.
ghost use Rattle.std.specs.Prelude.{◌≡◌, ◌∷◌, ◌++◌, IfOk, OnOk, codes};
ghost use Rattle.std.specs.Fmt.{decimal};
ghost use Rattle.cecil_inspect.specs.Lines.{line};
ghost use Rattle.cecil_top.specs.Commands.{home_of};
ghost use Rattle.cecil_top.specs.RunText.{actor_lines, answer_line, answer_lines, answer_place, ask_line, ask_lines};
ghost use Rattle.cecil_top.specs.RunText.{end_line, end_word, entry_line, entry_lines, history_line, history_text};
ghost use Rattle.cecil_top.specs.RunText.{history_texts, outcome_line, run_text, said_lines};
ghost use Rattle.dump_text.specs.Entries.{entry_text};
ghost use Rattle.dump_text.specs.Outcomes.{outcome_text};

use crate::end_text::add_end;
use crate::record::{ActorRecord, RunRecord};
use crate::said::{Asked, Said};
use cecil_inspect::add_decimal;
use cil_base::{Bytes, List, NoMemory};
use dump_text::{add_reply, entry_text, outcome_text};
use graph_edits::Outcome;
use job_text::Command;
use lazy_core::Core;
use node_model::Entry;
use resolver::Next;
use shared_module::{Answer, Edited};
use std::alloc::Global;

/// The number of the module that a command speaks of.
fn home_of(command: &Command) -> u32
    ensures { result ≡ home_of command.now }
{
    match command {
        Command::Query { module, .. } => *module,
        Command::Edit { module, .. } => *module,
        Command::Resolve { module, .. } => *module,
        Command::Attribute { module, .. } => *module,
    }
}

/// Adds to which command of which actor something is answered, about which module, and at which point of its history.
fn add_answer_place(
    text: &mut Bytes,
    actor: u64,
    number: u64,
    home: u32,
    point: u64,
) -> Result<(), NoMemory>
    ensures { OnOk result (text.new ≡ text.old ++ answer_place actor number home point) }
{
    add_decimal(text, actor)?;
    text.push(b'.')?;
    add_decimal(text, number)?;
    text.extend(b" m")?;
    add_decimal(text, u64::from(home))?;
    text.extend(b" @")?;
    add_decimal(text, point)
}

/// Adds what an edit came to.
fn add_outcome(text: &mut Bytes, outcome: &Outcome) -> Result<(), NoMemory>
    ensures { OnOk result (text.new ≡ text.old ++ outcome_text outcome.now) }
{
    let told = outcome_text(text.allocator(), outcome)?;
    text.extend(told.as_slice())
}

/// Adds the line of one reply.
fn add_answer_line(
    text: &mut Bytes,
    actor: u64,
    number: u64,
    home: u32,
    answer: &Answer,
) -> Result<(), NoMemory>
    ensures { OnOk result (text.new ≡ text.old ++ answer_line actor number home answer.now) }
{
    add_answer_place(text, actor, number, home, answer.at)?;
    text.push(b' ')?;
    add_reply(text, &answer.reply)?;
    text.push(b'\n')
}

/// Adds the line of what an edit came to.
fn add_outcome_line(
    text: &mut Bytes,
    actor: u64,
    number: u64,
    home: u32,
    edited: &Edited,
) -> Result<(), NoMemory>
    ensures { OnOk result (text.new ≡ text.old ++ outcome_line actor number home edited.now) }
{
    add_answer_place(text, actor, number, home, edited.at)?;
    text.push(b' ')?;
    add_outcome(text, &edited.outcome)?;
    text.push(b'\n')
}

/// Adds the line of one question of a resolution.
fn add_ask(text: &mut Bytes, actor: u64, number: u64, asked: &Asked) -> Result<(), NoMemory>
    ensures { OnOk result (text.new ≡ text.old ++ ask_line actor number asked.now) }
{
    add_answer_place(text, actor, number, asked.home, asked.answer.at)?;
    text.extend(b" ask ")?;
    add_reply(text, &asked.answer.reply)?;
    text.push(b'\n')
}

/// Adds the lines of all questions of a resolution.
fn add_asks(text: &mut Bytes, actor: u64, number: u64, asked: &[Asked]) -> Result<(), NoMemory>
    ensures { OnOk result (text.new ≡ text.old ++ ask_lines actor number asked.now) }
{
    for one in asked {
        add_ask(text, actor, number, one)?;
    }
    Ok(())
}

/// What the end of a command is called.
fn end_word(command: &Command) -> &'static [u8]
    ensures { result.now ≡ end_word command.now }
{
    match command {
        Command::Attribute { .. } => b" attribute ",
        _ => b" resolve ",
    }
}

/// Adds the line of a resolution's end.
fn add_end_line(
    text: &mut Bytes,
    actor: u64,
    number: u64,
    command: &Command,
    end: &Next,
) -> Result<(), NoMemory>
    ensures { OnOk result (text.new ≡ text.old ++ end_line actor number command.now end.now) }
{
    add_decimal(text, actor)?;
    text.push(b'.')?;
    add_decimal(text, number)?;
    text.extend(end_word(command))?;
    add_end(text, end)?;
    text.push(b'\n')
}

/// Adds the lines of one answer.
fn add_answer(
    text: &mut Bytes,
    actor: u64,
    number: u64,
    command: &Command,
    said: &Said,
) -> Result<(), NoMemory>
    ensures { OnOk result (text.new ≡ text.old ++ said_lines actor number command.now said.now) }
{
    match said {
        Said::Query(answer) => add_answer_line(text, actor, number, home_of(command), answer),
        Said::Edit(edited) => add_outcome_line(text, actor, number, home_of(command), edited),
        Said::Resolved(resolution) => {
            add_asks(text, actor, number, resolution.asked.as_slice())?;
            add_end_line(text, actor, number, command, &resolution.end)
        }
    }
}

/// Adds the lines of all answers to an actor.
fn add_answers(
    text: &mut Bytes,
    actor: u64,
    commands: &[Command],
    said: &[Said],
) -> Result<(), NoMemory>
    ensures { OnOk result (text.new ≡ text.old ++ answer_lines actor 0 commands.now said.now) }
{
    let count = commands.len().min(said.len());
    for number in 0..count {
        add_answer(text, actor, number as u64, &commands[number], &said[number])?;
    }
    Ok(())
}

/// Adds the lines of an actor.
fn add_actor(text: &mut Bytes, number: u64, actor: &ActorRecord) -> Result<(), NoMemory>
    ensures { OnOk result (text.new ≡ text.old ++ answer_lines number 0 actor.now.commands actor.now.said) }
{
    add_answers(
        text,
        number,
        actor.commands.as_slice(),
        actor.said.as_slice(),
    )
}

/// Adds the lines of all actors.
fn add_actors(text: &mut Bytes, actors: &[ActorRecord]) -> Result<(), NoMemory>
    ensures { OnOk result (text.new ≡ text.old ++ actor_lines 0 actors.now) }
{
    let count = actors.len();
    for number in 0..count {
        add_actor(text, number as u64, &actors[number])?;
    }
    Ok(())
}

/// Adds the text of an entry.
fn add_entry_text(text: &mut Bytes, entry: &Entry) -> Result<(), NoMemory>
    ensures { OnOk result (text.new ≡ text.old ++ entry_text entry.now) }
{
    let told = entry_text(text.allocator(), entry)?;
    text.extend(told.as_slice())
}

/// Adds the line of one entry.
fn add_entry(text: &mut Bytes, home: u64, place: u64, entry: &Entry) -> Result<(), NoMemory>
    ensures { OnOk result (text.new ≡ text.old ++ entry_line home place entry.now) }
{
    text.push(b'm')?;
    add_decimal(text, home)?;
    text.push(b' ')?;
    add_decimal(text, place)?;
    text.push(b' ')?;
    add_entry_text(text, entry)?;
    text.push(b'\n')
}

/// Adds the lines of all entries of a module.
fn add_entries(text: &mut Bytes, home: u64, history: &[Entry]) -> Result<(), NoMemory>
    ensures { OnOk result (text.new ≡ text.old ++ entry_lines home 1 history.now) }
{
    let count = history.len();
    for at in 0..count {
        add_entry(text, home, at as u64 + 1, &history[at])?;
    }
    Ok(())
}

/// Adds the line that says how many entries a module has.
fn add_history_line(text: &mut Bytes, home: u64, history: &[Entry]) -> Result<(), NoMemory>
    ensures { OnOk result (text.new ≡ text.old ++ history_line home history.now) }
{
    text.push(b'm')?;
    add_decimal(text, home)?;
    text.extend(b" history ")?;
    add_decimal(text, history.len() as u64)?;
    text.push(b'\n')
}

/// Adds the history of a module.
fn add_history(text: &mut Bytes, home: u64, core: &Core) -> Result<(), NoMemory>
    ensures { OnOk result (text.new ≡ text.old ++ history_text home core.now.history) }
{
    let history = core.history();
    add_history_line(text, home, history)?;
    add_entries(text, home, history)
}

/// Adds the histories of all modules.
fn add_histories(text: &mut Bytes, cores: &[Core]) -> Result<(), NoMemory>
    ensures { OnOk result (text.new ≡ text.old ++ history_texts 0 cores.now) }
{
    let count = cores.len();
    for home in 0..count {
        add_history(text, home as u64, &cores[home])?;
    }
    Ok(())
}

/// The text of a run: for each answer to each actor the line `ACTOR.COMMAND mMODULE @POINT ANSWER`, where a resolution has
/// the line `ACTOR.COMMAND mMODULE @POINT ask REPLY` for each question and then the line `ACTOR.COMMAND resolve END` or
/// `ACTOR.COMMAND attribute END`; and then for each
/// module the line `mMODULE history COUNT` and for each of its entries, from 1 on, the line `mMODULE NUMBER ENTRY`. Every
/// line ends with a line feed.
#[tactic(auto, unfolding(crate::specs::RunText::run_text))]
pub fn run_text(alloc: Global, ran: &RunRecord) -> Result<Bytes, NoMemory>
    ensures { IfOk result (λ text. text ≡ run_text ran.now) }
{
    let mut text = List::new(alloc);
    add_actors(&mut text, ran.actors.as_slice())?;
    add_histories(&mut text, ran.cores.as_slice())?;
    Ok(text)
}
