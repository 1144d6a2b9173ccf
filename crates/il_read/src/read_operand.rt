ghost use Rattle.std.specs.Prelude.{◌≡◌, ◌++◌, ◌+◌, ◌*◌, ◌-◌, ◌<◌, ◌≤◌, ◌^◌, length, IfOk};
ghost use Rattle.il_code.specs.Code.{operand_at, switch_target_at};
ghost use Rattle.il_code.specs.Items.{items_at};

use crate::branch::{long_target, short_target};
use crate::fields::{u8_at, u16_at, u32_at, u64_at};
use crate::texts::text_at;
use cil_base::{List, NoMemory, Token};
use il_code::{Operand, OperandKind};
use std::alloc::Global;

/// The operand that stands at a place of the code's bytes. Its targets are places in the code.
#[tactic(auto, unfolding(il_code::specs::Code::operand_at))]
pub(crate) fn read_operand(
    alloc: Global,
    code: &[u8],
    users: &[u8],
    place: usize,
    kind: OperandKind,
) -> Result<Option<Operand>, NoMemory>
    requires size { length code.now < 2 ^ 32 }
    requires place { place < 2 ^ 33 }
    ensures { IfOk result (λ operand. operand ≡ operand_at users.now code.now place kind) }
{
    match kind {
        OperandKind::Text => read_text(alloc, code, users, place),
        OperandKind::Switch => read_switch(alloc, code, users, place),
        _ => Ok(read_fixed(code, users, place, kind)),
    }
}

/// The operand of a kind that takes no memory.
#[tactic(auto, unfolding(il_code::specs::Code::operand_at))]
fn read_fixed(code: &[u8], users: &[u8], place: usize, kind: OperandKind) -> Option<Operand>
    requires size { length code.now < 2 ^ 32 }
    requires place { place < 2 ^ 33 }
    requires text { kind ≡ OperandKind.Text → ⊥ }
    requires switch { kind ≡ OperandKind.Switch → ⊥ }
    ensures { result ≡ operand_at users.now code.now place kind }
{
    match kind {
        OperandKind::NoOperand | OperandKind::Text | OperandKind::Switch => Some(Operand::None),
        OperandKind::U8 => Some(Operand::U8(u8_at(code, place)?)),
        OperandKind::U16 => Some(Operand::U16(u16_at(code, place)?)),
        OperandKind::I8 => Some(Operand::I8(u8_at(code, place)?.cast_signed())),
        OperandKind::I32 => Some(Operand::I32(u32_at(code, place)?.cast_signed())),
        OperandKind::I64 => Some(Operand::I64(u64_at(code, place)?.cast_signed())),
        OperandKind::R4 => Some(Operand::R4(u32_at(code, place)?)),
        OperandKind::R8 => Some(Operand::R8(u64_at(code, place)?)),
        OperandKind::Token => Some(Operand::Tok(Token::from_number(u32_at(code, place)?))),
        OperandKind::ShortBranch => read_short(code, users, place),
        OperandKind::Branch => read_long(code, users, place),
    }
}

/// A target at a distance of one byte.
#[tactic(auto, unfolding(il_code::specs::Code::operand_at))]
fn read_short(code: &[u8], users: &[u8], place: usize) -> Option<Operand>
    requires size { length code.now < 2 ^ 32 }
    requires place { place < 2 ^ 33 }
    ensures { result ≡ operand_at users.now code.now place OperandKind.ShortBranch }
{
    let distance = u8_at(code, place)?;
    let target = short_target(code, place + 1, distance)?;
    Some(Operand::Target(target))
}

/// A target at a distance of four bytes.
#[tactic(auto, unfolding(il_code::specs::Code::operand_at))]
fn read_long(code: &[u8], users: &[u8], place: usize) -> Option<Operand>
    requires size { length code.now < 2 ^ 32 }
    requires place { place < 2 ^ 33 }
    ensures { result ≡ operand_at users.now code.now place OperandKind.Branch }
{
    let distance = u32_at(code, place)?;
    let target = long_target(code, place + 4, distance)?;
    Some(Operand::Target(target))
}

/// A user string's text.
#[tactic(auto, unfolding(il_code::specs::Code::operand_at))]
fn read_text(
    alloc: Global,
    code: &[u8],
    users: &[u8],
    place: usize,
) -> Result<Option<Operand>, NoMemory>
    ensures { IfOk result (λ operand. operand ≡ operand_at users.now code.now place OperandKind.Text) }
{
    let Some(token) = u32_at(code, place) else {
        return Ok(None);
    };
    match text_at(alloc, users, token)? {
        Some(text) => Ok(Some(Operand::Text(text))),
        None => Ok(None),
    }
}

/// The targets of a switch.
#[tactic(auto, unfolding(il_code::specs::Code::operand_at))]
fn read_switch(
    alloc: Global,
    code: &[u8],
    users: &[u8],
    place: usize,
) -> Result<Option<Operand>, NoMemory>
    requires size { length code.now < 2 ^ 32 }
    requires place { place < 2 ^ 33 }
    ensures { IfOk result (λ operand. operand ≡ operand_at users.now code.now place OperandKind.Switch) }
{
    let Some(count) = u32_at(code, place) else {
        return Ok(None);
    };
    match read_targets(alloc, code, place + 4, count)? {
        Some(targets) => Ok(Some(Operand::Switch(targets))),
        None => Ok(None),
    }
}

/// As many targets as the count, from a place on. Reads no further than the code's end, whatever the count.
fn read_targets(
    alloc: Global,
    code: &[u8],
    place: usize,
    count: u32,
) -> Result<Option<List<u32>>, NoMemory>
    requires size { length code.now < 2 ^ 32 }
    requires place { place < 2 ^ 34 }
    ensures { IfOk result (λ targets. targets
        ≡ items_at (switch_target_at code.now (place + 4 * count)) 4 place count) }
{
    let after = place + 4 * count as usize;
    let mut targets = List::new(alloc);
    for i in 0..count as usize {
        let Some(target) = switch_target(code, after, place + 4 * i) else {
            return Ok(None);
        };
        targets.push(target)?;
    }
    Ok(Some(targets))
}

/// One target of a switch.
#[tactic(auto, unfolding(il_code::specs::Code::switch_target_at))]
fn switch_target(code: &[u8], after: usize, place: usize) -> Option<u32>
    requires size { length code.now < 2 ^ 32 }
    requires after { after < 2 ^ 40 }
    ensures { result ≡ switch_target_at code.now after place }
{
    let distance = u32_at(code, place)?;
    long_target(code, after, distance)
}
