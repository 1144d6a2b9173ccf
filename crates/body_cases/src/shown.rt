use cil_base::{List, NoMemory, Token};
use il_code::{Body, Handler, HandlerKind, Operand, op_name};
use std::alloc::Global;
use std::fmt::Write;

/// A body: its header's numbers, its instructions by number, and its handlers.
pub fn body(alloc: Global, body: &Body) -> Result<String, NoMemory> {
    let stack = body.max_stack;
    let init = u8::from(body.init_locals);
    let mut text = format!(in alloc; "stack={stack} init={init} locals=")?;
    if body.locals == Token::ROOT {
        text.push_str("none")?;
    } else {
        add_token(&mut text, body.locals)?;
    }
    let mut number: u32 = 0;
    for instr in body.code.as_slice() {
        let name = op_name(instr.op).unwrap_or("?");
        write!(text, " [{number}] {name}")?;
        number = number.saturating_add(1);
        add_operand(&mut text, &instr.operand)?;
    }
    for handler in body.handlers.as_slice() {
        add_handler(&mut text, handler)?;
    }
    Ok(text)
}

/// A token as eight hex digits.
fn add_token(text: &mut String, token: Token) -> Result<(), NoMemory> {
    let number = token.number();
    write!(text, "{number:08x}")?;
    Ok(())
}

/// What follows an instruction's name.
fn add_operand(text: &mut String, operand: &Operand) -> Result<(), NoMemory> {
    match operand {
        Operand::None => {}
        Operand::U8(number) => write!(text, " {number}")?,
        Operand::U16(number) => write!(text, " {number}")?,
        Operand::I8(number) => write!(text, " {number}")?,
        Operand::I32(number) => write!(text, " {number}")?,
        Operand::I64(number) => write!(text, " {number}")?,
        Operand::R4(bits) => write!(text, " {bits:08x}")?,
        Operand::R8(bits) => write!(text, " {bits:016x}")?,
        Operand::Tok(token) => {
            text.push_str(" ")?;
            add_token(text, *token)?;
        }
        Operand::Text(units) => add_text(text, units)?,
        Operand::Target(target) => write!(text, " ->{target}")?,
        Operand::Switch(targets) => add_targets(text, targets)?,
    }
    Ok(())
}

/// The units of a text in quotes: 20 to 7E as they are, the others by their numbers.
fn add_text(text: &mut String, units: &List<u16>) -> Result<(), NoMemory> {
    text.push_str(" \"")?;
    for unit in units.as_slice() {
        match *unit {
            0x22 => text.push_str("\\\"")?,
            0x5c => text.push_str("\\\\")?,
            0x20..=0x7e => {
                let shown = char::from(*unit as u8);
                write!(text, "{shown}")?;
            }
            _ => write!(text, "\\u{unit:04x}")?,
        }
    }
    text.push_str("\"")?;
    Ok(())
}

/// The targets of a switch.
fn add_targets(text: &mut String, targets: &List<u32>) -> Result<(), NoMemory> {
    text.push_str(" (")?;
    let mut between = "";
    for target in targets.as_slice() {
        write!(text, "{between}->{target}")?;
        between = ",";
    }
    text.push_str(")")?;
    Ok(())
}

/// A handler: its kind, its bounds, and the type's token or the filter's start.
fn add_handler(text: &mut String, handler: &Handler) -> Result<(), NoMemory> {
    let kind = match handler.kind {
        HandlerKind::Typed(_) => "typed",
        HandlerKind::Filter(_) => "filter",
        HandlerKind::Finally => "finally",
        HandlerKind::Fault => "fault",
    };
    let try_start = handler.try_start;
    let try_end = handler.try_end;
    let start = handler.start;
    let end = handler.end;
    write!(text, " {{{kind} {try_start} {try_end} {start} {end}")?;
    match handler.kind {
        HandlerKind::Typed(token) => {
            text.push_str(" ")?;
            add_token(text, token)?;
        }
        HandlerKind::Filter(start) => write!(text, " {start}")?,
        HandlerKind::Finally | HandlerKind::Fault => {}
    }
    text.push_str("}")?;
    Ok(())
}
