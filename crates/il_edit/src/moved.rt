//! The numbers of a body's targets and bounds, changed in place.

ghost use Rattle.std.specs.Prelude.{◌≡◌, ◌<◌, Some, length, map, slice_get, slice_set};
ghost use Rattle.il_code.specs.declared.handler.Handler.{Handler as HandlerSpec};
ghost use Rattle.il_code.specs.Code.{placed, placed_operand};
ghost use Rattle.il_code.specs.Spelling.{placed_handler, placed_kind};
ghost use Rattle.il_edit.specs.inner.Shifted.{kept_number};

use crate::shift::Shift;
use cil_base::List;
use il_code::{Handler, HandlerKind, Instr, Operand};

/// The targets of a switch.
fn move_targets(shift: Shift, targets: List<u32>) -> List<u32>
    ensures { result ≡ map (kept_number shift) targets }
{
    let mut targets = targets;
    for i in 0..targets.len() {
        let target = targets.set(i, 0);
        targets.set(i, shift.narrow(target));
    }
    targets
}

/// The targets of an operand.
fn move_operand(shift: Shift, operand: Operand) -> Operand
    ensures { result ≡ placed_operand (kept_number shift) operand }
{
    match operand {
        Operand::Target(target) => Operand::Target(shift.narrow(target)),
        Operand::Switch(targets) => Operand::Switch(move_targets(shift, targets)),
        other => other,
    }
}

/// The targets of an instruction.
fn move_instr(shift: Shift, instr: Instr) -> Instr
    ensures { result ≡ placed (kept_number shift) instr }
{
    let Instr { op, operand } = instr;
    let operand = move_operand(shift, operand);
    Instr { op, operand }
}

/// An instruction that does nothing and has no target: it holds a place.
pub(crate) fn nop() -> Instr {
    Instr {
        op: 0x00,
        operand: Operand::None,
    }
}

/// The targets of all instructions.
pub(crate) fn move_code(shift: Shift, code: &mut List<Instr>)
    ensures { code.new ≡ map (placed (kept_number shift)) code.old }
{
    for i in 0..code.len() {
        let instr = code.set(i, nop());
        code.set(i, move_instr(shift, instr));
    }
}

/// The start of a filter.
fn move_kind(shift: Shift, kind: HandlerKind) -> HandlerKind
    ensures { result ≡ placed_kind (kept_number shift) kind }
{
    match kind {
        HandlerKind::Filter(start) => HandlerKind::Filter(shift.narrow(start)),
        other => other,
    }
}

/// The bounds of a handler.
fn move_handler(shift: Shift, handler: &Handler) -> Handler
    ensures { result ≡ placed_handler (kept_number shift) handler.now }
{
    Handler {
        kind: move_kind(shift, handler.kind),
        try_start: shift.narrow(handler.try_start),
        try_end: shift.narrow(handler.try_end),
        start: shift.narrow(handler.start),
        end: shift.narrow(handler.end),
    }
}

/// The bounds of all handlers.
pub(crate) fn move_handlers(shift: Shift, handlers: &mut List<Handler>)
    ensures { handlers.new ≡ map (placed_handler (kept_number shift)) handlers.old }
{
    for i in 0..handlers.len() {
        move_one(shift, handlers, i);
    }
}

/// The bounds of handler number `i`.
fn move_one(shift: Shift, handlers: &mut List<Handler>, i: usize)
    requires { i < length handlers.old }
    ensures { (h : HandlerSpec) → slice_get handlers.old i ≡ Some h
        → handlers.new ≡ slice_set handlers.old i (placed_handler (kept_number shift) h) }
{
    let moved = move_handler(shift, &handlers.as_slice()[i]);
    handlers.set(i, moved);
}
