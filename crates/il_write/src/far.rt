//! Short branches whose targets are too far (ECMA-335 III.1.7.2).

ghost use Rattle.std.specs.Prelude.{◌≡◌, ◌<◌, ◌^◌, length};
ghost use Rattle.il_code.specs.Instructions.{kind_of};
ghost use Rattle.il_code.specs.CodeBytes.{is_short as is_short_kind};
ghost use Rattle.il_code.specs.CodePlaces.{instr_place};
ghost use Rattle.il_code.specs.Refusal.{first_far, is_far_branch, is_past as is_past_byte, target_is_far};

use crate::places::any_place;
use il_code::{Instr, Operand, OperandKind, operand_kind};

/// Whether a code has a target of one byte.
pub(crate) fn is_short(op: u16) -> bool
    ensures { result ≡ is_short_kind (kind_of op) }
{
    match operand_kind(op) {
        Some(OperandKind::ShortBranch) => true,
        _ => false,
    }
}

/// Whether a distance is outside -128 to 127.
fn is_past(after: u128, place: u128) -> bool
    ensures { result ≡ is_past_byte after place }
{
    if place < after {
        128 < after - place
    } else {
        127 < place - after
    }
}

/// Whether an operand is a target at such a distance.
fn has_far_target(places: &[u128], after: u128, operand: &Operand) -> bool
    ensures { result ≡ target_is_far (instr_place places.now) after operand.now }
{
    match operand {
        Operand::Target(target) => is_past(after, any_place(places, *target as usize)),
        _ => false,
    }
}

/// Whether an instruction is a short branch with such a target.
fn branch_is_far(places: &[u128], after: u128, instr: &Instr) -> bool
    ensures { result ≡ is_far_branch (instr_place places.now) after instr.now }
{
    if is_short(instr.op) {
        has_far_target(places, after, &instr.operand)
    } else {
        false
    }
}

/// The number of the first such branch.
#[tactic(auto, unfolding(il_code::specs::Refusal::first_far))]
pub(crate) fn far_branch(places: &[u128], code: &[Instr]) -> Option<u32>
    requires { length code.now < 2 ^ 32 }
    ensures { result ≡ first_far (instr_place places.now) code.now }
{
    for i in 0..code.len() {
        if branch_is_far(places, any_place(places, i + 1), &code[i]) {
            return Some(i as u32);
        }
    }
    None
}
