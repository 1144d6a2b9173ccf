//! Bodies of a case. Each word is one or more parts between slashes:
//!
//! | word | part of the body |
//! |---|---|
//! | `stack/NUMBER`, `init/1`, `locals/TOKEN` | the header's numbers, which are 8, 0 and none else |
//! | `op/CODE/COUNT`, `op/CODE/COUNT/KIND/VALUE` | COUNT instructions, without an operand or with one |
//! | `typed/COUNT/A/B/C/D/TOKEN`, `filter/COUNT/A/B/C/D/START` | COUNT handlers |
//! | `finally/COUNT/A/B/C/D`, `fault/COUNT/A/B/C/D` | COUNT handlers |
//!
//! An operand is `u8`, `u16`, a `tok` in hex, a target `to`, or a `switch` with so many targets 0.

use crate::words::{code, hex, number, part};
use crate::written;
use cil_base::{List, NoMemory, Token};
use il_code::{Body, Handler, HandlerKind, Instr, Operand};
use std::alloc::Global;

/// The most instructions and handlers of a case's body.
const MOST: usize = 0x100_0000;

/// The body of a case's words, written.
pub fn answer(alloc: Global, line: &str) -> Result<String, NoMemory> {
    match body(alloc, line, 1)? {
        Some(body) => written::body(alloc, &body, &List::new(alloc)),
        None => Ok(String::from_str(alloc, "?")?),
    }
}

/// The body of a case's words from a place on.
pub fn body(alloc: Global, line: &str, first: usize) -> Result<Option<Body>, NoMemory> {
    let mut code = List::new(alloc);
    for word in line.split(' ').skip(first) {
        add_instrs(alloc, &mut code, word)?;
    }
    let handlers = handlers(alloc, line, first)?;
    let locals = Token::from_number(hex(value(line, "locals")));
    Ok(made(
        max_stack(line),
        locals,
        value(line, "init") == "1",
        code,
        handlers,
    ))
}

/// What stands behind the first word of a case that begins with a key, or nothing.
fn value<'a>(line: &'a str, key: &str) -> &'a str {
    for word in line.split(' ') {
        if part(word, 0) == key {
            return part(word, 1);
        }
    }
    ""
}

/// The max stack of a case.
fn max_stack(line: &str) -> u16 {
    match value(line, "stack") {
        "" => 8,
        text => number(text).min(0xffff) as u16,
    }
}

/// The body of these parts, where they are no more than a case may have.
fn made(
    max_stack: u16,
    locals: Token,
    init_locals: bool,
    code: List<Instr>,
    handlers: List<Handler>,
) -> Option<Body> {
    if code.len() > MOST || handlers.len() > MOST {
        return None;
    }
    Some(Body {
        max_stack,
        init_locals,
        locals,
        code,
        handlers,
    })
}

/// Adds the instructions of a word, if it is one of instructions.
fn add_instrs(alloc: Global, all: &mut List<Instr>, word: &str) -> Result<(), NoMemory> {
    let count = if part(word, 0) == "op" {
        number(part(word, 2))
    } else {
        0
    };
    for _i in 0..count {
        let instr = instr(alloc, word)?;
        all.push(instr)?;
    }
    Ok(())
}

/// The instruction of a word.
pub fn instr(alloc: Global, word: &str) -> Result<Instr, NoMemory> {
    let op = code(part(word, 1));
    let operand = operand(alloc, part(word, 3), part(word, 4))?;
    Ok(Instr { op, operand })
}

/// The operand of a word.
fn operand(alloc: Global, kind: &str, value: &str) -> Result<Operand, NoMemory> {
    match kind {
        "u8" => Ok(Operand::U8(number(value).min(0xff) as u8)),
        "u16" => Ok(Operand::U16(number(value).min(0xffff) as u16)),
        "to" => Ok(Operand::Target(number(value))),
        "tok" => Ok(Operand::Tok(Token::from_number(hex(value)))),
        "switch" => {
            let mut targets = List::new(alloc);
            for _i in 0..number(value) {
                targets.push(0)?;
            }
            Ok(Operand::Switch(targets))
        }
        _ => Ok(Operand::None),
    }
}

/// The handlers of a case's words from a place on.
fn handlers(alloc: Global, line: &str, first: usize) -> Result<List<Handler>, NoMemory> {
    let mut all = List::new(alloc);
    for word in line.split(' ').skip(first) {
        let count = match part(word, 0) {
            "typed" | "filter" | "finally" | "fault" => number(part(word, 1)),
            _ => 0,
        };
        all = with_handlers(all, count, word)?;
    }
    Ok(all)
}

/// The handlers so far, with so many of a word.
fn with_handlers(
    handlers: List<Handler>,
    count: u32,
    word: &str,
) -> Result<List<Handler>, NoMemory> {
    let mut all = handlers;
    for _i in 0..count {
        all = with_handler(all, word)?;
    }
    Ok(all)
}

/// The handlers so far, with that of a word.
fn with_handler(handlers: List<Handler>, word: &str) -> Result<List<Handler>, NoMemory> {
    let mut all = handlers;
    all.extend(&[handler(word)])?;
    Ok(all)
}

/// The handler of a word.
pub fn handler(word: &str) -> Handler {
    Handler {
        kind: handler_kind(part(word, 0), part(word, 6)),
        try_start: number(part(word, 2)),
        try_end: number(part(word, 3)),
        start: number(part(word, 4)),
        end: number(part(word, 5)),
    }
}

/// The kind of a handler, with the token or the number of an instruction that it has.
fn handler_kind(kind: &str, last: &str) -> HandlerKind {
    match kind {
        "typed" => HandlerKind::Typed(Token::from_number(hex(last))),
        "filter" => HandlerKind::Filter(number(last)),
        "finally" => HandlerKind::Finally,
        _ => HandlerKind::Fault,
    }
}
