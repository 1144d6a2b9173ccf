ghost use Rattle.std.specs.Prelude.{◌≡◌, ◌<◌, ◌≤◌, ◌^◌, ◌++◌, ℕ, false, flat_map, OnOk};
ghost use Rattle.il_code.specs.CodeBytes.{distance as distance_of, operand_bytes, target_bytes};
ghost use Rattle.il_code.specs.CodePlaces.{instr_place};
ghost use Rattle.il_write.specs.inner.Ranges.{OperandFits};

use crate::places::place_at;
use crate::put::{put, token_number};
use cil_base::{Bytes, NoMemory};
use il_code::Operand;

/// The distance between two places in two's complement, as a number below the modulus.
fn distance(modulus: u64, after: u32, place: u32) -> u64
    requires positive { 0 < modulus }
    requires small { modulus ≤ 2 ^ 32 }
    ensures { result ≡ distance_of modulus after place }
{
    (modulus + place as u64).saturating_sub(after as u64) % modulus
}

/// Writes a target that stands at a place, in one byte or in four.
fn write_target(out: &mut Bytes, short: bool, after: u32, place: u32) -> Result<(), NoMemory>
    ensures ok { OnOk result (out.new ≡ out.old ++ target_bytes short after place) }
{
    if short {
        put(out, 1, distance(0x100, after, place))
    } else {
        put(out, 4, distance(0x1_0000_0000, after, place))
    }
}

/// Writes the targets of a switch.
fn write_targets(
    out: &mut Bytes,
    places: &[u128],
    after: u32,
    targets: &[u32],
) -> Result<(), NoMemory>
    requires { (i : ℕ) → instr_place places.now i ≤ 2 ^ 24 }
    ensures ok { OnOk result (out.new ≡ out.old ++ flat_map (λ t.
        target_bytes false after (instr_place places.now t)) targets.now) }
{
    for target in targets {
        write_target(out, false, after, place_at(places, *target as usize))?;
    }
    Ok(())
}

/// Writes the operand of an instruction that ends before a place. The token is that of its text.
#[tactic(auto, unfolding(il_code::specs::CodeBytes::operand_bytes))]
pub(crate) fn write_operand(
    out: &mut Bytes,
    places: &[u128],
    after: u32,
    token: u32,
    short: bool,
    operand: &Operand,
) -> Result<(), NoMemory>
    requires { (i : ℕ) → instr_place places.now i ≤ 2 ^ 24 }
    ensures ok { OnOk result (out.new ≡ out.old
        ++ operand_bytes (instr_place places.now) after token short operand.now) }
    ensures fits { OperandFits operand.now }
{
    match operand {
        Operand::None => Ok(()),
        Operand::U8(number) => put(out, 1, *number as u64),
        Operand::U16(number) => put(out, 2, *number as u64),
        Operand::I8(number) => put(out, 1, number.cast_unsigned() as u64),
        Operand::I32(number) => put(out, 4, number.cast_unsigned() as u64),
        Operand::I64(number) => put(out, 8, number.cast_unsigned()),
        Operand::R4(bits) => put(out, 4, *bits as u64),
        Operand::R8(bits) => put(out, 8, *bits),
        Operand::Tok(named) => put(out, 4, token_number(*named) as u64),
        Operand::Text(_) => put(out, 4, token as u64),
        Operand::Target(target) => {
            write_target(out, short, after, place_at(places, *target as usize))
        }
        Operand::Switch(targets) => {
            put(out, 4, targets.len() as u64)?;
            write_targets(out, places, after, targets.as_slice())
        }
    }
}
