//! Bodies: an empty one, and those with code, by the words behind `ilbody TOKEN STACK LOCALS`: the instructions, and
//! behind `;` the handlers.

use crate::instr::{handler, instr};
use crate::words::{small_number, token, word};
use cil_base::{List, NoMemory, Token};
use il_code::{Body, Handler, Instr};
use std::alloc::Global;

/// The most instructions, and the most handlers, of a case's body.
const MOST: usize = 1000;

/// Which word of a line is the first instruction.
const FIRST: usize = 6;

/// A body without code.
pub fn empty_body(alloc: Global) -> Body {
    Body {
        max_stack: 8,
        init_locals: false,
        locals: Token::ROOT,
        code: List::new(alloc),
        handlers: List::new(alloc),
    }
}

/// The instructions of a line.
fn instrs(alloc: Global, line: &str) -> Result<List<Instr>, NoMemory> {
    let mut code = List::new(alloc);
    for text in line.split(' ').skip(FIRST) {
        code.push(instr(alloc, text)?)?;
    }
    Ok(code)
}

/// The handlers so far, with that of a word; the empty word is none.
fn with_handler(handlers: List<Handler>, word: &str) -> Result<List<Handler>, NoMemory> {
    let mut all = handlers;
    if !word.is_empty() {
        all.extend(&[handler(word)])?;
    }
    Ok(all)
}

/// The handlers of these words.
fn handlers(alloc: Global, words: &str) -> Result<List<Handler>, NoMemory> {
    let mut all = List::new(alloc);
    for text in words.split(' ') {
        all = with_handler(all, text)?;
    }
    Ok(all)
}

/// The body of these parts, where they are no more than a case may have.
fn made(max_stack: u16, locals: Token, code: List<Instr>, handlers: List<Handler>) -> Option<Body> {
    if code.len() > MOST || handlers.len() > MOST {
        return None;
    }
    Some(Body {
        max_stack,
        init_locals: false,
        locals,
        code,
        handlers,
    })
}

/// The body of a line; none where it has more than a case may have.
pub fn body(alloc: Global, line: &str) -> Result<Option<Body>, NoMemory> {
    let (head, behind) = line.split_once(" ; ").unwrap_or((line, ""));
    let max_stack = small_number(word(line, 4));
    let locals = token(word(line, 5));
    let handlers = handlers(alloc, behind)?;
    let code = instrs(alloc, head)?;
    Ok(made(max_stack, locals, code, handlers))
}
