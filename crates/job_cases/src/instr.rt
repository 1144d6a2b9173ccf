//! Instructions and handlers, each one word of parts between slashes: `CODE`, `CODE/KIND/VALUE` with a code in hex and
//! an operand of the kinds `u8`, `u16`, `i8`, `i32`, `i64`, `r4`, `r8`, `tok`, `text`, `to` or `switch`;
//! `typed/A/B/C/D/TOKEN`, `filter/A/B/C/D/START`, `finally/A/B/C/D`, `fault/A/B/C/D`. Bits and the units of a text are
//! in hex.

use crate::text::{add_hex, add_number, add_signed, add_token};
use cil_base::{Bytes, NoMemory};
use il_code::{Handler, HandlerKind, Instr, Operand};

/// Adds the units of a text, four digits each.
fn add_units(text: &mut Bytes, units: &[u16]) -> Result<(), NoMemory> {
    for unit in units {
        add_hex(text, &unit.to_be_bytes())?;
    }
    Ok(())
}

/// Adds targets, with a comma between each two.
fn add_targets(text: &mut Bytes, targets: &[u32]) -> Result<(), NoMemory> {
    let mut first = true;
    for target in targets {
        if !first {
            text.push(b',')?;
        }
        first = false;
        add_number(text, *target as u64)?;
    }
    Ok(())
}

/// Adds the kind and the value of an operand.
fn add_operand(text: &mut Bytes, operand: &Operand) -> Result<(), NoMemory> {
    match operand {
        Operand::None => Ok(()),
        Operand::U8(number) => add_kind(text, b"/u8/", *number as i64),
        Operand::U16(number) => add_kind(text, b"/u16/", *number as i64),
        Operand::I8(number) => add_kind(text, b"/i8/", *number as i64),
        Operand::I32(number) => add_kind(text, b"/i32/", *number as i64),
        Operand::I64(number) => add_kind(text, b"/i64/", *number),
        Operand::Target(target) => add_kind(text, b"/to/", *target as i64),
        Operand::R4(bits) => {
            text.extend(b"/r4/")?;
            add_hex(text, &bits.to_be_bytes())
        }
        Operand::R8(bits) => {
            text.extend(b"/r8/")?;
            add_hex(text, &bits.to_be_bytes())
        }
        Operand::Tok(token) => {
            text.extend(b"/tok/")?;
            add_token(text, *token)
        }
        Operand::Text(units) => {
            text.extend(b"/text/")?;
            add_units(text, units.as_slice())
        }
        Operand::Switch(targets) => {
            text.extend(b"/switch/")?;
            add_targets(text, targets.as_slice())
        }
    }
}

/// Adds a kind and a number.
fn add_kind(text: &mut Bytes, kind: &[u8], number: i64) -> Result<(), NoMemory> {
    text.extend(kind)?;
    add_signed(text, number)
}

/// Adds an instruction.
pub fn add_instr(text: &mut Bytes, instr: &Instr) -> Result<(), NoMemory> {
    add_hex(text, &instr.op.to_be_bytes())?;
    add_operand(text, &instr.operand)
}

/// Adds a slash and a number.
fn add_part(text: &mut Bytes, number: u32) -> Result<(), NoMemory> {
    text.push(b'/')?;
    add_number(text, number as u64)
}

/// Adds a handler.
pub fn add_handler(text: &mut Bytes, handler: &Handler) -> Result<(), NoMemory> {
    match handler.kind {
        HandlerKind::Typed(_) => text.extend(b"typed")?,
        HandlerKind::Filter(_) => text.extend(b"filter")?,
        HandlerKind::Finally => text.extend(b"finally")?,
        HandlerKind::Fault => text.extend(b"fault")?,
    }
    add_part(text, handler.try_start)?;
    add_part(text, handler.try_end)?;
    add_part(text, handler.start)?;
    add_part(text, handler.end)?;
    match handler.kind {
        HandlerKind::Typed(token) => {
            text.push(b'/')?;
            add_token(text, token)
        }
        HandlerKind::Filter(start) => add_part(text, start),
        HandlerKind::Finally => Ok(()),
        HandlerKind::Fault => Ok(()),
    }
}
