//! Operands as commands give them, by the kinds of their instructions (ECMA-335 III.1.9).

ghost use Rattle.std.specs.Prelude.{◌≡◌, ◌^◌, IfOk, [], map, option_map};
ghost use Rattle.il_code.specs.declared.kind.OperandKind.TheVariants as kinds;
ghost use Rattle.il_code.specs.declared.operand.Operand.TheVariants as operands;
ghost use Rattle.job_text.specs.Operands.{given_operand, given_targets_from, given_targets, units_of};
ghost use Rattle.job_text.specs.Values.{given_number, given_text};
ghost use Rattle.serde_json.specs.View.{view};

use crate::command::Command;
use crate::digits::{eight_digits, sixteen_digits};
use crate::token::given_token;
use crate::values::{
    given_integer, given_list, given_number, given_text, given_text_bytes, is_null,
};
use cil_base::{List, NoMemory};
use il_code::{Operand, OperandKind};
use serde_json::Value;
use std::alloc::Global;

/// The units of a text in UTF-16.
#[tactic(auto, using(crate::proofs::OperandLemmas::units_more), unfolding(crate::specs::Operands::units_of))]
fn units_of(alloc: Global, text: &str) -> Result<List<u16>, NoMemory>
    ensures { IfOk result (λ units. units ≡ units_of text.now) }
{
    let mut units = List::new(alloc);
    for c in text.chars() {
        let mut pair = [0; 2];
        units.extend(c.encode_utf16(&mut pair))?;
    }
    Ok(units)
}

/// The user string of a text.
fn text_operand(alloc: Global, value: &Value) -> Result<Option<Operand>, NoMemory>
    ensures { IfOk result (λ operand. operand ≡ option_map (λ text. operands.Text (units_of text)) (given_text (view value.now))) }
{
    match given_text(value) {
        Some(text) => Ok(Some(Operand::Text(units_of(alloc, text)?))),
        None => Ok(None),
    }
}

/// The number of an instruction.
fn target_in(value: &Value) -> Option<u32>
    ensures { result ≡ given_number (2 ^ 32) (view value.now) }
{
    let target = given_number(value, 0x1_0000_0000)?;
    Some(target as u32)
}

/// The targets of a switch.
#[tactic(auto, using(crate::proofs::OperandLemmas::target_next, crate::proofs::OperandLemmas::target_none, crate::proofs::OperandLemmas::targets_over))]
fn given_targets_from(alloc: Global, values: &[Value]) -> Result<Option<List<u32>>, NoMemory>
    ensures { IfOk result (λ targets. targets ≡ given_targets_from [] (map view values.now)) }
{
    let mut targets = List::new(alloc);
    for value in values {
        let Some(target) = target_in(value) else {
            return Ok(None);
        };
        targets.push(target)?;
    }
    Ok(Some(targets))
}

/// The operand of a list of targets.
#[tactic(auto, unfolding(crate::specs::Operands::given_targets))]
fn switch_operand(alloc: Global, value: &Value) -> Result<Option<Operand>, NoMemory>
    ensures { IfOk result (λ operand. operand ≡ option_map operands.Switch (given_targets (view value.now))) }
{
    let Some(values) = given_list(value) else {
        return Ok(None);
    };
    match given_targets_from(alloc, values)? {
        Some(targets) => Ok(Some(Operand::Switch(targets))),
        None => Ok(None),
    }
}

/// No operand, which null gives.
#[tactic(auto, unfolding(crate::specs::Operands::given_operand))]
fn no_operand(value: &Value) -> Option<Operand>
    ensures { result ≡ given_operand 0 [] kinds.NoOperand (view value.now) }
{
    if is_null(value) {
        Some(Operand::None)
    } else {
        None
    }
}

/// The operand of a number of 1 byte.
#[tactic(auto, unfolding(crate::specs::Operands::given_operand))]
fn u8_operand(value: &Value) -> Option<Operand>
    ensures { result ≡ given_operand 0 [] kinds.U8 (view value.now) }
{
    let number = given_number(value, 0x100)?;
    Some(Operand::U8(number as u8))
}

/// The operand of a number of 2 bytes.
#[tactic(auto, unfolding(crate::specs::Operands::given_operand))]
fn u16_operand(value: &Value) -> Option<Operand>
    ensures { result ≡ given_operand 0 [] kinds.U16 (view value.now) }
{
    let number = given_number(value, 0x1_0000)?;
    Some(Operand::U16(number as u16))
}

/// The operand of a signed number of 1 byte.
#[tactic(auto, unfolding(crate::specs::Operands::given_operand))]
fn i8_operand(value: &Value) -> Option<Operand>
    ensures { result ≡ given_operand 0 [] kinds.I8 (view value.now) }
{
    let number = given_integer(value, -0x80, 0x7f)?;
    Some(Operand::I8(number as i8))
}

/// The operand of a signed number of 4 bytes.
#[tactic(auto, unfolding(crate::specs::Operands::given_operand))]
fn i32_operand(value: &Value) -> Option<Operand>
    ensures { result ≡ given_operand 0 [] kinds.I32 (view value.now) }
{
    let number = given_integer(value, -0x8000_0000, 0x7fff_ffff)?;
    Some(Operand::I32(number as i32))
}

/// The operand of a signed number of 8 bytes.
#[tactic(auto, unfolding(crate::specs::Operands::given_operand))]
fn i64_operand(value: &Value) -> Option<Operand>
    ensures { result ≡ given_operand 0 [] kinds.I64 (view value.now) }
{
    let number = given_integer(value, i64::MIN, i64::MAX)?;
    Some(Operand::I64(number))
}

/// The operand of the bits of a float of 4 bytes.
#[tactic(auto, unfolding(crate::specs::Operands::given_operand))]
fn r4_operand(value: &Value) -> Option<Operand>
    ensures { result ≡ given_operand 0 [] kinds.R4 (view value.now) }
{
    let bits = eight_digits(given_text_bytes(value)?)?;
    Some(Operand::R4(bits))
}

/// The operand of the bits of a float of 8 bytes.
#[tactic(auto, unfolding(crate::specs::Operands::given_operand))]
fn r8_operand(value: &Value) -> Option<Operand>
    ensures { result ≡ given_operand 0 [] kinds.R8 (view value.now) }
{
    let bits = sixteen_digits(given_text_bytes(value)?)?;
    Some(Operand::R8(bits))
}

/// The operand of a token.
#[tactic(auto, unfolding(crate::specs::Operands::given_operand))]
fn token_operand(home: u32, before: &[Command], value: &Value) -> Option<Operand>
    ensures { result ≡ given_operand home before.now kinds.Token (view value.now) }
{
    let row = given_token(home, before, value)?;
    Some(Operand::Tok(row.token))
}

/// The operand of a target.
#[tactic(auto, unfolding(crate::specs::Operands::given_operand))]
fn target_operand(value: &Value) -> Option<Operand>
    ensures { result ≡ given_operand 0 [] kinds.Branch (view value.now) }
{
    let target = target_in(value)?;
    Some(Operand::Target(target))
}

/// The operand that a value gives for an instruction of that kind. None exactly where it gives none.
#[tactic(auto, unfolding(crate::specs::Operands::given_operand))]
pub(crate) fn given_operand(
    alloc: Global,
    home: u32,
    before: &[Command],
    kind: OperandKind,
    value: &Value,
) -> Result<Option<Operand>, NoMemory>
    ensures { IfOk result (λ operand. operand ≡ given_operand home before.now kind (view value.now)) }
{
    match kind {
        OperandKind::NoOperand => Ok(no_operand(value)),
        OperandKind::U8 => Ok(u8_operand(value)),
        OperandKind::U16 => Ok(u16_operand(value)),
        OperandKind::I8 => Ok(i8_operand(value)),
        OperandKind::I32 => Ok(i32_operand(value)),
        OperandKind::I64 => Ok(i64_operand(value)),
        OperandKind::R4 => Ok(r4_operand(value)),
        OperandKind::R8 => Ok(r8_operand(value)),
        OperandKind::Token => Ok(token_operand(home, before, value)),
        OperandKind::Text => text_operand(alloc, value),
        OperandKind::ShortBranch => Ok(target_operand(value)),
        OperandKind::Branch => Ok(target_operand(value)),
        OperandKind::Switch => switch_operand(alloc, value),
    }
}
