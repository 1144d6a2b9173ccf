//! Whether instructions and handlers are sound after an edit, by the numbers that targets and bounds become.

ghost use Rattle.std.specs.Prelude.{◌≡◌, ◌+◌, ◌<◌, ◌^◌, length, map, nat_lt};
ghost use Rattle.std.specs.List.{list_all};
ghost use Rattle.il_code.specs.Code.{placed, placed_operand};
ghost use Rattle.il_code.specs.Sound.{filter_fits, is_sound_handler, is_sound_instr, targets_fit};
ghost use Rattle.il_code.specs.Spelling.{placed_handler, placed_kind};
ghost use Rattle.il_edit.specs.inner.Failing.{failing_from};
ghost use Rattle.il_edit.specs.inner.Shifted.{shifted};

use crate::shift::Shift;
use il_code::{Handler, HandlerKind, Instr, Operand, is_of_kind};

/// Whether a number becomes one below the count.
fn is_below(shift: Shift, count: usize, number: u32) -> bool
    ensures { result ≡ nat_lt (shifted shift number) count }
{
    shift.number(number) < count as u64
}

/// Whether each of the targets does.
fn all_below(shift: Shift, count: usize, targets: &[u32]) -> bool
    ensures { result ≡ list_all (λ t. nat_lt (shifted shift t) count) targets.now }
{
    targets.iter().all(|target| is_below(shift, count, *target))
}

/// Whether the targets of an operand do.
#[tactic(auto, using(crate::proofs::ShiftLemmas::all_map))]
fn targets_below(shift: Shift, count: usize, operand: &Operand) -> bool
    ensures { result ≡ targets_fit count (placed_operand (shifted shift) operand.now) }
{
    match operand {
        Operand::Target(target) => is_below(shift, count, *target),
        Operand::Switch(targets) => all_below(shift, count, targets.as_slice()),
        _ => true,
    }
}

/// Whether an instruction is sound among so many.
#[tactic(auto, using(crate::proofs::ShiftLemmas::kind_placed))]
pub(crate) fn is_sound(shift: Shift, count: usize, instr: &Instr) -> bool
    ensures { result ≡ is_sound_instr count (placed (shifted shift) instr.now) }
{
    if is_of_kind(instr.op, &instr.operand) {
        targets_below(shift, count, &instr.operand)
    } else {
        false
    }
}

/// The number of the first instruction that is not, where the first has the number `base`.
pub(crate) fn first_bad(shift: Shift, count: usize, base: u32, code: &[Instr]) -> Option<u32>
    requires { base + length code.now < 2 ^ 32 }
    ensures { result ≡ failing_from (is_sound_instr count) base (map (placed (shifted shift)) code.now) }
{
    for i in 0..code.len() {
        if !is_sound(shift, count, &code[i]) {
            return Some(base + i as u32);
        }
    }
    None
}

/// Whether a filter begins at an instruction.
fn is_filter_below(shift: Shift, count: usize, kind: HandlerKind) -> bool
    ensures { result ≡ filter_fits count (placed_kind (shifted shift) kind) }
{
    match kind {
        HandlerKind::Filter(start) => is_below(shift, count, start),
        _ => true,
    }
}

/// Whether a handler is sound among so many instructions.
pub(crate) fn is_handler_sound(shift: Shift, count: usize, handler: &Handler) -> bool
    ensures { result ≡ is_sound_handler count (placed_handler (shifted shift) handler.now) }
{
    let try_end = shift.number(handler.try_end);
    let end = shift.number(handler.end);
    is_filter_below(shift, count, handler.kind)
        && shift.number(handler.try_start) <= try_end
        && try_end <= count as u64
        && shift.number(handler.start) <= end
        && end <= count as u64
}

/// The number of the first handler that is not, where the first has the number `base`.
pub(crate) fn first_bad_handler(
    shift: Shift,
    count: usize,
    base: u32,
    handlers: &[Handler],
) -> Option<u32>
    requires { base + length handlers.now < 2 ^ 32 }
    ensures { result ≡ failing_from (is_sound_handler count) base (map (placed_handler (shifted shift)) handlers.now) }
{
    for i in 0..handlers.len() {
        if !is_handler_sound(shift, count, &handlers[i]) {
            return Some(base + i as u32);
        }
    }
    None
}
