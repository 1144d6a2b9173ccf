ghost use Rattle.std.specs.Prelude.{◌≡◌, ◌∷◌, ◌++◌, OnOk};
ghost use Rattle.std.specs.Fmt.{decimal};
ghost use Rattle.std.specs.List.{enumerate_from, flat_map};
ghost use Rattle.dump_text.specs.Bodies.{body_head, body_text, bounds_text, handler_end, handler_text, handler_word};
ghost use Rattle.dump_text.specs.Bodies.{il_text, locals_text, instr_text};

use crate::key::add_word;
use crate::names::op_text;
use crate::operand::add_operand;
use crate::pieces::{add_decimal, add_flag};
use cil_base::{Bytes, NoMemory, Token};
use il_code::{Body, Handler, HandlerKind, Instr};
use node_model::BodyValue;

/// Adds a word and a number.
pub(crate) fn add_labelled(text: &mut Bytes, word: &[u8], number: u64) -> Result<(), NoMemory>
    ensures { OnOk result (text.new ≡ text.old ++ word.now ++ decimal number) }
{
    text.extend(word)?;
    add_decimal(text, number)
}

/// Adds an instruction; it comes with its number.
fn add_instr(text: &mut Bytes, number: usize, instr: &Instr) -> Result<(), NoMemory>
    ensures { OnOk result (text.new ≡ text.old ++ instr_text (number, instr.now)) }
{
    add_labelled(text, b" [", number as u64)?;
    text.extend(b"] ")?;
    text.extend(op_text(instr.op))?;
    add_operand(text, &instr.operand)
}

/// Adds instructions with their numbers.
fn add_code(text: &mut Bytes, code: &[Instr]) -> Result<(), NoMemory>
    ensures { OnOk result (text.new ≡ text.old ++ flat_map instr_text (enumerate_from 0 code.now)) }
{
    for (number, instr) in code.iter().enumerate() {
        add_instr(text, number, instr)?;
    }
    Ok(())
}

/// The word of a kind of handler.
fn handler_word(kind: &HandlerKind) -> &'static [u8]
    ensures { result.now ≡ handler_word kind.now }
{
    match kind {
        HandlerKind::Typed(_) => b"typed",
        HandlerKind::Filter(_) => b"filter",
        HandlerKind::Finally => b"finally",
        HandlerKind::Fault => b"fault",
    }
}

/// Adds what stands behind the bounds of a handler.
fn add_handler_end(text: &mut Bytes, kind: &HandlerKind) -> Result<(), NoMemory>
    ensures { OnOk result (text.new ≡ text.old ++ handler_end kind.now) }
{
    match kind {
        HandlerKind::Typed(token) => add_word(text, b" ", *token),
        HandlerKind::Filter(start) => add_labelled(text, b" ", u64::from(*start)),
        HandlerKind::Finally => Ok(()),
        HandlerKind::Fault => Ok(()),
    }
}

/// Adds the bounds of a handler.
fn add_bounds(text: &mut Bytes, handler: &Handler) -> Result<(), NoMemory>
    ensures { OnOk result (text.new ≡ text.old ++ bounds_text handler.now) }
{
    add_labelled(text, b" ", u64::from(handler.try_start))?;
    add_labelled(text, b" ", u64::from(handler.try_end))?;
    add_labelled(text, b" ", u64::from(handler.start))?;
    add_labelled(text, b" ", u64::from(handler.end))
}

/// Adds a handler.
fn add_handler(text: &mut Bytes, handler: &Handler) -> Result<(), NoMemory>
    ensures { OnOk result (text.new ≡ text.old ++ handler_text handler.now) }
{
    text.extend(b" {")?;
    text.extend(handler_word(&handler.kind))?;
    add_bounds(text, handler)?;
    add_handler_end(text, &handler.kind)?;
    text.extend(b"}")
}

/// Adds handlers.
fn add_handlers(text: &mut Bytes, handlers: &[Handler]) -> Result<(), NoMemory>
    ensures { OnOk result (text.new ≡ text.old ++ flat_map handler_text handlers.now) }
{
    for handler in handlers {
        add_handler(text, handler)?;
    }
    Ok(())
}

/// Adds the token of the locals.
fn add_locals(text: &mut Bytes, locals: Token) -> Result<(), NoMemory>
    ensures { OnOk result (text.new ≡ text.old ++ locals_text locals) }
{
    if locals.table == 0 && locals.rid == 0 {
        text.extend(b"none")
    } else {
        text.extend(&locals.hex_digits())
    }
}

/// Adds what the header of a body says.
fn add_head(text: &mut Bytes, body: &Body) -> Result<(), NoMemory>
    ensures { OnOk result (text.new ≡ text.old ++ body_head body.now) }
{
    add_labelled(text, b" stack=", u64::from(body.max_stack))?;
    text.extend(b" init=")?;
    add_flag(text, body.init_locals)?;
    text.extend(b" locals=")?;
    add_locals(text, body.locals)
}

/// Adds a body of instructions.
fn add_il(text: &mut Bytes, body: &Body) -> Result<(), NoMemory>
    ensures { OnOk result (text.new ≡ text.old ++ il_text body.now) }
{
    add_head(text, body)?;
    add_code(text, body.code.as_slice())?;
    add_handlers(text, body.handlers.as_slice())
}

/// Adds what stands behind the key of a body.
pub(crate) fn add_body(text: &mut Bytes, body: &BodyValue) -> Result<(), NoMemory>
    ensures { OnOk result (text.new ≡ text.old ++ body_text body.now) }
{
    match body {
        BodyValue::NoBody => text.extend(b" none"),
        BodyValue::Native(rva) => add_labelled(text, b" native ", u64::from(*rva)),
        BodyValue::Il(body) => add_il(text, body),
    }
}
