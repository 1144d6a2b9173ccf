//! The conditions of `encode_body`, as a test.

ghost use Rattle.std.specs.Prelude.{◌≡◌, ◌<◌, ◌≤◌, ◌↔◌, IsTrue, length};
ghost use Rattle.std.specs.List.{AllByRecursion};
ghost use Rattle.il_code.specs.Code.{TargetsBelow};
ghost use Rattle.il_code.specs.Spelling.{FilterBelow};
ghost use Rattle.il_code.specs.Writable.{IsSound, IsSoundHandler, Writable, texts_of};

use crate::write_code::text_count;
use cil_base::List;
use il_code::{Body, Handler, HandlerKind, Instr, Operand, is_of_kind};

/// Whether each of the targets is below a number.
fn all_below(count: usize, targets: &[u32]) -> bool
    ensures { IsTrue result ↔ AllByRecursion (λ t. t < count) targets.now }
{
    for target in targets {
        if count <= *target as usize {
            return false;
        }
    }
    true
}

/// Whether the targets of an operand are.
fn targets_below(count: usize, operand: &Operand) -> bool
    ensures { IsTrue result ↔ TargetsBelow count operand.now }
{
    match operand {
        Operand::Target(target) => (*target as usize) < count,
        Operand::Switch(targets) => all_below(count, targets.as_slice()),
        _ => true,
    }
}

/// Whether an instruction of code with so many of them can be written.
fn is_sound(count: usize, instr: &Instr) -> bool
    ensures { IsTrue result ↔ IsSound count instr.now }
{
    is_of_kind(instr.op, &instr.operand) && targets_below(count, &instr.operand)
}

/// Whether all instructions can.
fn all_sound(count: usize, code: &[Instr]) -> bool
    ensures { IsTrue result ↔ AllByRecursion (IsSound count) code.now }
{
    for instr in code {
        if !is_sound(count, instr) {
            return false;
        }
    }
    true
}

/// Whether the start of a filter is below a number.
fn filter_below(count: usize, kind: HandlerKind) -> bool
    ensures { IsTrue result ↔ FilterBelow count kind }
{
    match kind {
        HandlerKind::Filter(start) => (start as usize) < count,
        _ => true,
    }
}

/// Whether a handler of code with so many instructions can be written.
fn is_sound_handler(count: usize, handler: &Handler) -> bool
    ensures { IsTrue result ↔ IsSoundHandler count handler.now }
{
    filter_below(count, handler.kind)
        && handler.try_start <= handler.try_end
        && handler.try_end as usize <= count
        && handler.start <= handler.end
        && handler.end as usize <= count
}

/// Whether all handlers can.
fn all_sound_handlers(count: usize, handlers: &[Handler]) -> bool
    ensures { IsTrue result ↔ AllByRecursion (IsSoundHandler count) handlers.now }
{
    for handler in handlers {
        if !is_sound_handler(count, handler) {
            return false;
        }
    }
    true
}

/// How many texts instructions have.
fn count_texts(code: &[Instr]) -> usize
    ensures { result ≡ length (texts_of code.now) }
{
    let mut count = 0;
    for instr in code {
        count += text_count(&instr.operand);
    }
    count
}

/// Whether a body and tokens meet what `encode_body` asks: operands are of their codes' kinds, targets and the starts
/// of filters are instructions, the other bounds are at most the number of instructions, no end is before its start,
/// and there are as many tokens as texts.
pub fn is_writable(body: &Body, texts: &List<u32>) -> bool
    ensures { IsTrue result ↔ (Writable body.now × (length texts.now ≡ length (texts_of body.now.code))) }
{
    let count = body.code.len();
    all_sound(count, body.code.as_slice())
        && all_sound_handlers(count, body.handlers.as_slice())
        && texts.len() == count_texts(body.code.as_slice())
}
