ghost use Rattle.std.specs.Prelude.{◌≡◌, OnErr, OnOk};
ghost use Rattle.il_code.specs.Edited.{insert_refusal, remove_refusal, replace_refusal};
ghost use Rattle.il_code.specs.Edited.{with_instr, with_instr_for, without_instr};
ghost use Rattle.il_edit.specs.Ends.{EditFails, EditRefuses};

use crate::fail::IlFail;
use crate::moved::{move_code, move_handlers, nop};
use crate::refused::{insert_refused, remove_refused, replace_refused};
use crate::shift::Shift;
use il_code::{Body, IlRefusal, Instr};

/// Puts an instruction in before number `at`. Each target, filter start and bound that is `at` or more rises by one;
/// those of the new instruction are numbers of the body afterwards. Where it is refused, and where memory is wanting,
/// the body stays as it is.
pub fn insert(body: &mut Body, at: u32, instr: Instr) -> Result<(), IlFail>
    ensures done { OnOk result (body.new ≡ with_instr at instr body.old) }
    ensures refused { EditFails result (insert_refusal at instr body.old) }
    ensures unchanged { OnErr result (body.new ≡ body.old) }
{
    if let Some(refusal) = insert_refused(body, at, &instr) {
        return Err(IlFail::Refused(refusal));
    }
    body.code.insert(at as usize, nop())?;
    let shift = Shift::PutIn(at);
    move_code(shift, &mut body.code);
    body.code.set(at as usize, instr);
    move_handlers(shift, &mut body.handlers);
    Ok(())
}

/// Takes instruction number `at` out. Each target, filter start and bound above `at` falls by one; those that are `at`
/// stay, and are then those of the instruction after it. Where it is refused, the body stays as it is.
pub fn remove(body: &mut Body, at: u32) -> Result<(), IlRefusal>
    ensures done { OnOk result (body.new ≡ without_instr at body.old) }
    ensures refused { EditRefuses result (remove_refusal at body.old) }
    ensures unchanged { OnErr result (body.new ≡ body.old) }
{
    if let Some(refusal) = remove_refused(body, at) {
        return Err(refusal);
    }
    body.code.remove(at as usize);
    let shift = Shift::TakenOut(at);
    move_code(shift, &mut body.code);
    move_handlers(shift, &mut body.handlers);
    Ok(())
}

/// Puts an instruction in place of number `at`. No target and no bound changes. Where it is refused, the body stays as
/// it is.
pub fn replace(body: &mut Body, at: u32, instr: Instr) -> Result<(), IlRefusal>
    ensures done { OnOk result (body.new ≡ with_instr_for at instr body.old) }
    ensures refused { EditRefuses result (replace_refusal at instr body.old) }
    ensures unchanged { OnErr result (body.new ≡ body.old) }
{
    if let Some(refusal) = replace_refused(body, at, &instr) {
        return Err(refusal);
    }
    body.code.set(at as usize, instr);
    Ok(())
}
