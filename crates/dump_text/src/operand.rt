ghost use Rattle.std.specs.Prelude.{◌≡◌, [], ◌∷◌, ◌++◌, OnOk};
ghost use Rattle.std.specs.Fmt.{decimal, signed_decimal};
ghost use Rattle.std.specs.List.{flat_map};
ghost use Rattle.asm_names.specs.Assembly.{hex_text};
ghost use Rattle.dump_text.specs.Bodies.{further_target, operand_text, targets_text, unit_text};

use crate::key::add_word;
use crate::pieces::{add_decimal, add_hex, add_signed};
use cil_base::{Bytes, NoMemory};
use il_code::Operand;

/// Adds a space and a number.
fn add_number(text: &mut Bytes, number: u64) -> Result<(), NoMemory>
    ensures { OnOk result (text.new ≡ text.old ++ 0x20 ∷ decimal number) }
{
    text.push(b' ')?;
    add_decimal(text, number)
}

/// Adds a space and a number with its sign.
fn add_integer(text: &mut Bytes, number: i64) -> Result<(), NoMemory>
    ensures { OnOk result (text.new ≡ text.old ++ 0x20 ∷ signed_decimal number) }
{
    text.push(b' ')?;
    add_signed(text, number)
}

/// Adds a space and the bits of a number, given by its bytes.
fn add_bits(text: &mut Bytes, bytes: &[u8]) -> Result<(), NoMemory>
    ensures { OnOk result (text.new ≡ text.old ++ 0x20 ∷ hex_text bytes.now) }
{
    text.push(b' ')?;
    add_hex(text, bytes)
}

/// Adds a unit of UTF-16 as it stands in quotes.
#[tactic(auto, unfolding(crate::specs::Pieces::hex_number))]
fn add_unit(text: &mut Bytes, unit: u16) -> Result<(), NoMemory>
    ensures { OnOk result (text.new ≡ text.old ++ unit_text unit) }
{
    match unit {
        0x22 | 0x5c => text.extend(&[b'\\', unit as u8]),
        0x20..=0x7e => text.push(unit as u8),
        _ => {
            text.extend(b"\\u")?;
            add_hex(text, &unit.to_be_bytes())
        }
    }
}

/// Adds the units of a text.
fn add_units(text: &mut Bytes, units: &[u16]) -> Result<(), NoMemory>
    ensures { OnOk result (text.new ≡ text.old ++ flat_map unit_text units.now) }
{
    for unit in units {
        add_unit(text, *unit)?;
    }
    Ok(())
}

/// Adds a space and a text in quotes.
fn add_text(text: &mut Bytes, units: &[u16]) -> Result<(), NoMemory>
    ensures { OnOk result (text.new ≡ text.old ++ 0x20 ∷ 0x22 ∷ flat_map unit_text units.now ++ 0x22 ∷ []) }
{
    text.extend(b" \"")?;
    add_units(text, units)?;
    text.push(b'"')
}

/// Adds the targets of a switch behind its first.
fn add_further(text: &mut Bytes, targets: &[u32]) -> Result<(), NoMemory>
    ensures { OnOk result (text.new ≡ text.old ++ flat_map further_target targets.now) }
{
    for target in targets {
        text.push(b',')?;
        add_decimal(text, u64::from(*target))?;
    }
    Ok(())
}

/// Adds the targets of a switch, with a comma between each two.
fn add_targets(text: &mut Bytes, targets: &[u32]) -> Result<(), NoMemory>
    ensures { OnOk result (text.new ≡ text.old ++ targets_text targets.now) }
{
    match targets {
        [first, rest @ ..] => {
            add_decimal(text, u64::from(*first))?;
            add_further(text, rest)
        }
        [] => Ok(()),
    }
}

/// Adds the target of a branch.
fn add_target(text: &mut Bytes, target: u32) -> Result<(), NoMemory>
    ensures { OnOk result (text.new ≡ text.old ++ operand_text (Operand.Target target)) }
{
    text.extend(b" ->")?;
    add_decimal(text, u64::from(target))
}

/// Adds a switch's targets in brackets.
fn add_switch(text: &mut Bytes, targets: &[u32]) -> Result<(), NoMemory>
    ensures { OnOk result (text.new ≡ text.old ++ operand_text (Operand.Switch targets.now)) }
{
    text.extend(b" (")?;
    add_targets(text, targets)?;
    text.extend(b")")
}

/// Adds what stands behind an instruction's name.
#[tactic(auto, unfolding(crate::specs::Pieces::hex_number))]
pub(crate) fn add_operand(text: &mut Bytes, operand: &Operand) -> Result<(), NoMemory>
    ensures { OnOk result (text.new ≡ text.old ++ operand_text operand.now) }
{
    match operand {
        Operand::None => Ok(()),
        Operand::U8(value) => add_number(text, u64::from(*value)),
        Operand::U16(value) => add_number(text, u64::from(*value)),
        Operand::I8(value) => add_integer(text, i64::from(*value)),
        Operand::I32(value) => add_integer(text, i64::from(*value)),
        Operand::I64(value) => add_integer(text, *value),
        Operand::R4(bits) => add_bits(text, &bits.to_be_bytes()),
        Operand::R8(bits) => add_bits(text, &bits.to_be_bytes()),
        Operand::Tok(token) => add_word(text, b" ", *token),
        Operand::Text(units) => add_text(text, units.as_slice()),
        Operand::Target(target) => add_target(text, *target),
        Operand::Switch(targets) => add_switch(text, targets.as_slice()),
    }
}
