//! Reads a case a line, calls `il_code`, `il_read`, `il_write` and `il_edit`, and prints the case's number and the
//! answer. The answers that are wanted were made from the lists of ECMA-335 (II.25.4, III and VI.C.2), and not by this
//! program.
//!
//! | case | answer |
//! |---|---|
//! | `code HEX` | the name of the instruction with that code and what follows it, or `none` |
//! | `codes` | how many of the codes from 0 to FFFF are instructions' |
//! | `body HEX USERS TOKEN..` | the body at the front of the bytes, or `none`; then it as it is written |
//! | `edit VERB AT ITEM WORD..` | an edit of the body of these words, as in `edit.rt` |
//! | `build WORD..` | the body of these words, as in `build.rt`, written |
//!
//! USERS is a heap of user strings, and the tokens stand for the body's texts as it is written. A written body is its
//! bytes in hex, or their number and the first sixteen where they are more than 64; `far` and the number of a branch or
//! `large` and a number where it is refused; `unsound` where it is none that can be written.
#![tactic(auto)]

mod build;
mod edit;
mod shown;
mod words;
mod written;

use cil_base::NoMemory;
use il_code::{OperandKind, op_name, operand_kind};
use il_read::decode_body;
use std::alloc::Global;
use std::io::{self, ErrorKind};
use words::{bytes, code, tokens_from, word};

/// The answer to a case.
fn answer(alloc: Global, line: &str) -> Result<String, NoMemory> {
    match word(line, 0) {
        "code" => instruction(alloc, code(word(line, 1))),
        "codes" => count(alloc),
        "body" => body(alloc, line),
        "build" => build::answer(alloc, line),
        "edit" => edit::answer(alloc, line),
        _ => Ok(String::from_str(alloc, "?")?),
    }
}

/// The instruction with a code.
fn instruction(alloc: Global, code: u16) -> Result<String, NoMemory> {
    match (op_name(code), operand_kind(code)) {
        (Some(name), Some(kind)) => {
            let kind = kind_word(kind);
            Ok(format!(in alloc; "{name} {kind}")?)
        }
        (None, None) => Ok(String::from_str(alloc, "none")?),
        _ => Ok(String::from_str(alloc, "half")?),
    }
}

/// The word for a kind of operand.
fn kind_word(kind: OperandKind) -> &'static str {
    match kind {
        OperandKind::NoOperand => "none",
        OperandKind::U8 => "u8",
        OperandKind::U16 => "u16",
        OperandKind::I8 => "i8",
        OperandKind::I32 => "i32",
        OperandKind::I64 => "i64",
        OperandKind::R4 => "r4",
        OperandKind::R8 => "r8",
        OperandKind::Token => "token",
        OperandKind::Text => "text",
        OperandKind::ShortBranch => "short",
        OperandKind::Branch => "long",
        OperandKind::Switch => "switch",
    }
}

/// How many codes are instructions'.
fn count(alloc: Global) -> Result<String, NoMemory> {
    let mut count: u32 = 0;
    for code in 0..=0xffff {
        if operand_kind(code).is_some() && op_name(code).is_some() {
            count = count.saturating_add(1);
        }
    }
    Ok(format!(in alloc; "{count}")?)
}

/// A body that is read, copied and written.
fn body(alloc: Global, line: &str) -> Result<String, NoMemory> {
    let read = bytes(alloc, word(line, 1))?;
    let users = bytes(alloc, word(line, 2))?;
    let Some(body) = decode_body(alloc, read.as_slice(), users.as_slice())? else {
        return Ok(String::from_str(alloc, "none")?);
    };
    let texts = tokens_from(alloc, line, 3)?;
    let shown = shown::body(alloc, &body)?;
    let written = written::body(alloc, &body.copy()?, &texts)?;
    Ok(format!(in alloc; "{shown} | {written}")?)
}

/// Want of memory as an error of the program.
fn wanting(_error: NoMemory) -> io::Error {
    io::Error::from(ErrorKind::OutOfMemory)
}

fn main(rt: HostRuntime) -> io::Result<()> {
    let alloc = rt.alloc();
    let mut number: u32 = 0;
    for line in rt.lines(alloc) {
        number = number.wrapping_add(1);
        let line = line?;
        let answer = answer(alloc, line.as_str()).map_err(wanting)?;
        println!(rt; "{number} {answer}")?;
    }
    Ok(())
}
