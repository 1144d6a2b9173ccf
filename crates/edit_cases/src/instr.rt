//! Instructions and handlers, each one word of parts between slashes: `CODE`, `CODE/KIND/VALUE` with a code in hex and
//! an operand of the kinds `u8`, `u16`, `i8`, `i32`, `i64`, `r4`, `r8`, `tok`, `text`, `to` or `switch`;
//! `typed/A/B/C/D/TOKEN`, `filter/A/B/C/D/START`, `finally/A/B/C/D`, `fault/A/B/C/D`. Bits and the units of a text are
//! in hex.

use crate::words::{hex, number, part, small_hex, token, units};
use cil_base::{List, NoMemory};
use il_code::{Handler, HandlerKind, Instr, Operand};
use std::alloc::Global;

/// The targets of a switch, with a comma between each two.
fn targets(alloc: Global, text: &str) -> Result<Operand, NoMemory> {
    let mut targets = List::new(alloc);
    for target in text.split(',') {
        if !target.is_empty() {
            targets.push(number(target))?;
        }
    }
    Ok(Operand::Switch(targets))
}

/// The operand of a kind and a value.
fn operand(alloc: Global, kind: &str, value: &str) -> Result<Operand, NoMemory> {
    match kind {
        "u8" => Ok(Operand::U8(value.parse::<u8>().unwrap_or(0))),
        "u16" => Ok(Operand::U16(value.parse::<u16>().unwrap_or(0))),
        "i8" => Ok(Operand::I8(value.parse::<i8>().unwrap_or(0))),
        "i32" => Ok(Operand::I32(value.parse::<i32>().unwrap_or(0))),
        "i64" => Ok(Operand::I64(value.parse::<i64>().unwrap_or(0))),
        "r4" => Ok(Operand::R4(hex(value))),
        "r8" => Ok(Operand::R8(u64::from_str_radix(value, 16).unwrap_or(0))),
        "tok" => Ok(Operand::Tok(token(value))),
        "to" => Ok(Operand::Target(number(value))),
        "text" => Ok(Operand::Text(units(alloc, value)?)),
        "switch" => targets(alloc, value),
        _ => Ok(Operand::None),
    }
}

/// The instruction of a word.
pub fn instr(alloc: Global, word: &str) -> Result<Instr, NoMemory> {
    let op = small_hex(part(word, 0));
    let operand = operand(alloc, part(word, 1), part(word, 2))?;
    Ok(Instr { op, operand })
}

/// The kind of a handler, with the token or the number of an instruction that it has.
fn handler_kind(kind: &str, last: &str) -> HandlerKind {
    match kind {
        "typed" => HandlerKind::Typed(token(last)),
        "filter" => HandlerKind::Filter(number(last)),
        "finally" => HandlerKind::Finally,
        _ => HandlerKind::Fault,
    }
}

/// The handler of a word.
pub fn handler(word: &str) -> Handler {
    Handler {
        kind: handler_kind(part(word, 0), part(word, 5)),
        try_start: number(part(word, 1)),
        try_end: number(part(word, 2)),
        start: number(part(word, 3)),
        end: number(part(word, 4)),
    }
}
