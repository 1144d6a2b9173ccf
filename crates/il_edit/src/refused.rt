//! Why an edit is refused. Nothing is changed here: the numbers after the edit are worked out one by one.

ghost use Rattle.std.specs.Prelude.{◌≡◌, ◌+◌, ◌++◌, ◌∷◌, [], ◌<◌, ◌≤◌, ◌^◌, drop, length, map, take};
ghost use Rattle.il_code.specs.Code.{placed};
ghost use Rattle.std.specs.Option.{option_or};
ghost use Rattle.il_code.specs.Edited.{add_handler_refusal, bad_code, bad_handler, insert_refusal};
ghost use Rattle.il_code.specs.Edited.{remove_handler_refusal};
ghost use Rattle.il_code.specs.Edited.{remove_refusal, replace_refusal};
ghost use Rattle.il_code.specs.Sound.{is_sound_handler, is_sound_instr};
ghost use Rattle.il_edit.specs.inner.Failing.{failing_from, refusal_told};
ghost use Rattle.il_edit.specs.inner.Shifted.{shifted};

use crate::check::{first_bad, first_bad_handler, is_handler_sound, is_sound};
use crate::shift::Shift;
use il_code::{Body, Handler, IlRefusal, Instr};

/// The most instructions, and the most handlers, that a body has.
const MOST: usize = 0xffff_ffff;

/// The refusal for the first bad instruction, or else for the first bad handler.
fn refusal(code: Option<u32>, handler: Option<u32>) -> Option<IlRefusal>
    ensures { result ≡ refusal_told code handler }
{
    match code {
        Some(number) => Some(IlRefusal::BadCode(number)),
        None => match handler {
            Some(number) => Some(IlRefusal::BadHandler(number)),
            None => None,
        },
    }
}

/// Why a body is not sound as it stands: its first instruction with a target that is no instruction or an operand not
/// of its code's kind, else its first handler with an end before its start, a bound past the end, or a filter that
/// begins at no instruction. `None` exactly where it is sound (ECMA-335 II.25.4.6, III.1.7.2).
pub fn body_refused(body: &Body) -> Option<IlRefusal>
    ensures { result ≡ option_or (bad_code body.now) (bad_handler body.now) }
{
    let count = body.code.len();
    let code = body.code.as_slice();
    let handlers = body.handlers.as_slice();
    let bad = first_bad(Shift::Stay, count, 0, code);
    let bad_handler = first_bad_handler(Shift::Stay, count, 0, handlers);
    refusal(bad, bad_handler)
}

/// The number of the first bad instruction, where one stands between two parts.
fn first_bad_with(
    shift: Shift,
    count: usize,
    front: &[Instr],
    instr: &Instr,
    back: &[Instr],
) -> Option<u32>
    requires { length front.now + length back.now + 1 < 2 ^ 32 }
    ensures { result ≡ failing_from (is_sound_instr count) 0
        (map (placed (shifted shift)) front.now ++ instr.now ∷ map (placed (shifted shift)) back.now) }
{
    if let Some(number) = first_bad(shift, count, 0, front) {
        return Some(number);
    }
    let at = front.len() as u32;
    if !is_sound(Shift::Stay, count, instr) {
        return Some(at);
    }
    first_bad(shift, count, at + 1, back)
}

/// The number of the first bad instruction of two parts.
fn first_bad_of(shift: Shift, count: usize, front: &[Instr], back: &[Instr]) -> Option<u32>
    requires { length front.now + length back.now < 2 ^ 32 }
    ensures { result ≡ failing_from (is_sound_instr count) 0
        (map (placed (shifted shift)) front.now ++ map (placed (shifted shift)) back.now) }
{
    if let Some(number) = first_bad(shift, count, 0, front) {
        return Some(number);
    }
    first_bad(shift, count, front.len() as u32, back)
}

/// The number of the first bad handler of two parts.
fn first_bad_handler_of(count: usize, front: &[Handler], back: &[Handler]) -> Option<u32>
    requires { length front.now + length back.now < 2 ^ 32 }
    ensures { result ≡ failing_from (is_sound_handler count) 0 (front.now ++ back.now) }
{
    if let Some(number) = first_bad_handler(Shift::Stay, count, 0, front) {
        return Some(number);
    }
    first_bad_handler(Shift::Stay, count, front.len() as u32, back)
}

/// The number of the first bad handler, where one stands behind the others.
fn first_bad_handler_with(count: usize, front: &[Handler], handler: &Handler) -> Option<u32>
    requires { length front.now + 1 < 2 ^ 32 }
    ensures { result ≡ failing_from (is_sound_handler count) 0 (front.now ++ handler.now ∷ []) }
{
    if let Some(number) = first_bad_handler(Shift::Stay, count, 0, front) {
        return Some(number);
    }
    if is_handler_sound(Shift::Stay, count, handler) {
        None
    } else {
        Some(front.len() as u32)
    }
}

/// The items before a place.
fn front<T>(items: &[T], place: usize) -> &[T]
    requires { place ≤ length items.now }
    ensures { result.now ≡ take place items.now }
{
    &items[..place]
}

/// The items from a place on.
fn back<T>(items: &[T], place: usize) -> &[T]
    requires { place ≤ length items.now }
    ensures { result.now ≡ drop place items.now }
{
    &items[place..]
}

/// Why an instruction is not put in.
pub(crate) fn insert_refused(body: &Body, at: u32, instr: &Instr) -> Option<IlRefusal>
    ensures { result ≡ insert_refusal at instr.now body.now }
{
    let code = body.code.as_slice();
    let count = code.len();
    let place = at as usize;
    if count < place {
        return Some(IlRefusal::PlaceBeyond(at, count as u32));
    }
    if count == MOST {
        return Some(IlRefusal::PlaceBeyond(at, MOST as u32));
    }
    let shift = Shift::PutIn(at);
    let bad = first_bad_with(
        shift,
        count + 1,
        front(code, place),
        instr,
        back(code, place),
    );
    let bad_handler = first_bad_handler(shift, count + 1, 0, body.handlers.as_slice());
    refusal(bad, bad_handler)
}

/// Why an instruction is not taken out.
pub(crate) fn remove_refused(body: &Body, at: u32) -> Option<IlRefusal>
    ensures { result ≡ remove_refusal at body.now }
{
    let code = body.code.as_slice();
    let count = code.len();
    let place = at as usize;
    if count <= place {
        return Some(IlRefusal::PlaceBeyond(at, count as u32));
    }
    let shift = Shift::TakenOut(at);
    let bad = first_bad_of(shift, count - 1, front(code, place), back(code, place + 1));
    let bad_handler = first_bad_handler(shift, count - 1, 0, body.handlers.as_slice());
    refusal(bad, bad_handler)
}

/// Why an instruction is not exchanged.
pub(crate) fn replace_refused(body: &Body, at: u32, instr: &Instr) -> Option<IlRefusal>
    ensures { result ≡ replace_refusal at instr.now body.now }
{
    let code = body.code.as_slice();
    let count = code.len();
    let place = at as usize;
    if count <= place {
        return Some(IlRefusal::PlaceBeyond(at, count as u32));
    }
    let before = front(code, place);
    let bad = first_bad_with(Shift::Stay, count, before, instr, back(code, place + 1));
    let bad_handler = first_bad_handler(Shift::Stay, count, 0, body.handlers.as_slice());
    refusal(bad, bad_handler)
}

/// Why a handler is not added.
pub(crate) fn add_handler_refused(body: &Body, handler: &Handler) -> Option<IlRefusal>
    ensures { result ≡ add_handler_refusal handler.now body.now }
{
    let handlers = body.handlers.as_slice();
    if handlers.len() == MOST {
        return Some(IlRefusal::PlaceBeyond(MOST as u32, MOST as u32));
    }
    let count = body.code.len();
    let bad = first_bad(Shift::Stay, count, 0, body.code.as_slice());
    let bad_handler = first_bad_handler_with(count, handlers, handler);
    refusal(bad, bad_handler)
}

/// Why a handler is not taken out.
pub(crate) fn remove_handler_refused(body: &Body, at: u32) -> Option<IlRefusal>
    ensures { result ≡ remove_handler_refusal at body.now }
{
    let handlers = body.handlers.as_slice();
    let place = at as usize;
    if handlers.len() <= place {
        return Some(IlRefusal::PlaceBeyond(at, handlers.len() as u32));
    }
    let count = body.code.len();
    let bad = first_bad(Shift::Stay, count, 0, body.code.as_slice());
    let bad_handler = first_bad_handler_of(
        count,
        front(handlers, place),
        back(handlers, place + 1),
    );
    refusal(bad, bad_handler)
}
