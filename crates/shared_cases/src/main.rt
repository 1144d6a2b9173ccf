//! Shares the cores of images among callers, a line a run, and prints the line's number and what was seen. What is
//! printed is the same whatever the order in which the callers get their turns.
//!
//! - `turns FILE`: two callers take turns on one thread; each answer with its point, and the history.
//! - `threads FILE`: the same two in threads; the edits of the history.
//! - `hold0 FILE`, `hold1 FILE`: two in threads ask for a row each, and this one is held until the other was answered;
//!   whether it was held, whether the limit of its wait was reached, and how many keys were filled.
//! - `meet FILE`: the same two wait for each other while they decode; whether they met, and how many keys were filled.
//! - `many FILE`: eight in threads have 200 queries and edits each; how many edits each made, and whether the types are
//!   those after these edits, one after the other in the order of the history.
//! - `asks FILE IMAGES CALLERS TYPES`: as many images, and for each as many callers, all in threads, who ask for
//!   as many types; how many keys were filled.
#![tactic(auto)]

ghost use Rattle.std.specs.Prelude.{◌≡◌, []};

mod command;
mod compare;
mod opening;
mod pair;
mod print;
mod run_threads;
mod script;
mod turns;

use cil_base::{Bytes, List, NoMemory};
use cil_outside::{HoldGate, OpenGate};
use compare::{edits_of, same_as_replayed};
use lazy_core::Core;
use opening::{core_of, file};
use pair::in_turn;
use print::history_text;
use run_threads::{in_threads, over_all};
use script::Script;
use shared_module::MeetGate;
use std::alloc::Global;
use std::io::{self, ErrorKind, Write};
use std::rt::Files;
use std::sync::Wait;
use std::thread::Threads;

/// How often a caller that waits for another looks for it.
const MOST_LOOKS: u64 = 200_000_000;

/// The word of a line at this place, empty where there are fewer.
fn word(line: &str, place: usize) -> &str {
    line.split(' ').nth(place).unwrap_or("")
}

/// The decimal number at this place of a line, 1 where there is none.
fn number(line: &str, place: usize) -> u32 {
    word(line, place).parse::<u32>().unwrap_or(1)
}

/// A text of its own.
fn line(alloc: Global, text: &str) -> Result<Bytes, NoMemory> {
    List::from_slice(alloc, text.as_bytes())
}

/// Two callers in threads, each with a turn of the first type.
fn threads<R: Threads + Wait + Sync>(rt: &R, alloc: Global, core: Core) -> Result<Bytes, NoMemory>
    requires { core.history ≡ [] }
{
    let core = in_threads(rt, alloc, core, 2, Script::Turns, &OpenGate)?;
    history_text(alloc, core.history(), true)
}

/// Two callers, of whom this one is held.
fn hold<R: Threads + Wait + Sync>(
    rt: &R,
    alloc: Global,
    actor: u32,
    core: Core,
) -> Result<Bytes, NoMemory>
    requires { core.history ≡ [] }
{
    let other = if actor == 0 { 1 } else { 0 };
    let gate = HoldGate::new(actor, 0, other, 0, MOST_LOOKS);
    let core = in_threads(rt, alloc, core, 2, Script::Rows, &gate)?;
    let (held, reached, filled) = (gate.held(), gate.reached_limit(), core.history().len());
    line(
        alloc,
        format!(in alloc; "held {held} limit {reached} filled {filled}")?.as_str(),
    )
}

/// Two callers, who wait for each other.
fn meet<R: Threads + Wait + Sync>(rt: &R, alloc: Global, core: Core) -> Result<Bytes, NoMemory>
    requires { core.history ≡ [] }
{
    let gate = MeetGate::new(MOST_LOOKS);
    let core = in_threads(rt, alloc, core, 2, Script::Rows, &gate)?;
    let (met, filled) = (gate.met(), core.history().len());
    line(
        alloc,
        format!(in alloc; "met {met} filled {filled}")?.as_str(),
    )
}

/// Eight callers with many commands.
fn many<R: Threads + Wait + Sync>(rt: &R, alloc: Global, core: Core) -> Result<Bytes, NoMemory>
    requires { core.history ≡ [] }
{
    let mut core = in_threads(rt, alloc, core, 8, Script::Many, &OpenGate)?;
    let mut text = line(alloc, "edits")?;
    for caller in 0..8 {
        let count = edits_of(core.history(), caller);
        text.extend(format!(in alloc; " {count}")?.as_bytes())?;
    }
    let same = same_as_replayed(alloc, &mut core)?;
    text.extend(format!(in alloc; " same {same}")?.as_bytes())?;
    Ok(text)
}

/// What a run over a core prints.
fn run<R: Threads + Wait + Sync>(
    rt: &R,
    alloc: Global,
    name: &str,
    core: Core,
) -> Result<Bytes, NoMemory>
    requires { core.history ≡ [] }
{
    match name {
        "turns" => in_turn(rt, alloc, core),
        "threads" => threads(rt, alloc, core),
        "hold0" => hold(rt, alloc, 0, core),
        "hold1" => hold(rt, alloc, 1, core),
        "meet" => meet(rt, alloc, core),
        "many" => many(rt, alloc, core),
        _ => line(alloc, "no run"),
    }
}

/// Callers of several images of these bytes.
fn asks<R: Threads + Wait + Sync>(
    rt: &R,
    alloc: Global,
    words: &str,
    bytes: &[u8],
) -> Result<Bytes, NoMemory> {
    let callers = number(words, 3).max(1);
    let types = Script::Types(number(words, 4));
    let filled = over_all(rt, alloc, bytes, number(words, 2), callers, types)?;
    line(alloc, format!(in alloc; "filled {filled}")?.as_str())
}

/// What a line prints.
fn answer<R: Files + Threads + Wait + Sync>(
    rt: &R,
    alloc: Global,
    words: &str,
) -> Result<Bytes, NoMemory> {
    let bytes = file(alloc, rt, word(words, 1));
    if word(words, 0) == "asks" {
        return asks(rt, alloc, words, bytes.as_slice());
    }
    match core_of(alloc, bytes.as_slice())? {
        Some(core) => run(rt, alloc, word(words, 0), core),
        None => line(alloc, "no image"),
    }
}

/// Want of memory as an error of the program.
fn wanting(_error: NoMemory) -> io::Error {
    io::Error::from(ErrorKind::OutOfMemory)
}

fn main(rt: HostRuntime) -> io::Result<()> {
    let alloc = rt.alloc();
    let mut number: u32 = 0;
    for words in rt.lines(alloc) {
        number = number.wrapping_add(1);
        let text = answer(&rt, alloc, words?.as_str()).map_err(wanting)?;
        let head = format!(in alloc; "{number} ")?;
        rt.stdout().write_all(head.as_bytes())?;
        rt.stdout().write_all(text.as_slice())?;
        rt.stdout().write_all(b"\n")?;
    }
    Ok(())
}
