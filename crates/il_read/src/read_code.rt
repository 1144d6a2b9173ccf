ghost use Rattle.std.specs.Prelude.{◌≡◌, ◌<◌, ◌≤◌, ◌^◌, length, IfOk, IfSome};
ghost use Rattle.il_code.specs.Code.{code_at, instr_at};
ghost use Rattle.il_code.specs.Decoded.{code_in};

use crate::fields::u8_at;
use crate::read_operand::read_operand;
use cil_base::{List, NoMemory};
use il_code::format::{PREFIX, TWO_BYTES};
use il_code::{Instr, operand_kind};
use std::alloc::Global;

/// The code at a place.
#[tactic(auto, unfolding(il_code::specs::Code::code_at))]
fn read_op(code: &[u8], place: usize) -> Option<u16>
    requires { place < 2 ^ 33 }
    ensures { result ≡ code_at code.now place }
{
    let first = u8_at(code, place)?;
    if first == PREFIX {
        let second = u8_at(code, place + 1)?;
        Some(TWO_BYTES + second as u16)
    } else {
        Some(first as u16)
    }
}

/// The instruction at a place of the code. Its targets are places.
#[tactic(auto, unfolding(il_code::specs::Code::instr_at, il_code::specs::Code::code_size))]
fn read_instr(
    alloc: Global,
    code: &[u8],
    users: &[u8],
    place: usize,
) -> Result<Option<Instr>, NoMemory>
    requires size { length code.now < 2 ^ 32 }
    requires place { place < 2 ^ 32 }
    ensures { IfOk result (λ instr. instr ≡ instr_at users.now code.now place) }
{
    let Some(op) = read_op(code, place) else {
        return Ok(None);
    };
    let Some(kind) = operand_kind(op) else {
        return Ok(None);
    };
    let size = if op < 0x100 { 1 } else { 2 };
    match read_operand(alloc, code, users, place + size, kind)? {
        Some(operand) => Ok(Some(Instr { op, operand })),
        None => Ok(None),
    }
}

/// The instructions of the code, one after the other. Their targets are places. None where the code is not made of
/// such.
pub(crate) fn read_code(
    alloc: Global,
    code: &[u8],
    users: &[u8],
) -> Result<Option<List<Instr>>, NoMemory>
    requires { length code.now < 2 ^ 32 }
    ensures value { IfOk result (λ all. all ≡ code_in users.now code.now) }
    ensures few { IfOk result (λ all. IfSome all (λ xs. length xs ≤ length code.now)) }
{
    let mut all = List::new(alloc);
    let mut place = 0;
    while place < code.len() {
        let Some(instr) = read_instr(alloc, code, users, place)? else {
            return Ok(None);
        };
        place += instr.size() as usize;
        all.push(instr)?;
    }
    Ok(Some(all))
}
