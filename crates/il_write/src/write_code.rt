ghost use Rattle.std.specs.Prelude.{◌≡◌, ◌≤◌, ◌^◌, ◌++◌, ℕ, slice_index, length, OnOk};
ghost use Rattle.std.specs.List.{AllByRecursion};
ghost use Rattle.il_code.specs.CodeBytes.{code_bytes, instr_bytes, op_bytes};
ghost use Rattle.il_code.specs.CodePlaces.{instr_place};
ghost use Rattle.il_write.specs.inner.Ranges.{InstrFits};
ghost use Rattle.il_code.specs.Writable.{operand_texts};

use crate::far::is_short;
use crate::places::place_at;
use crate::write_operand::write_operand;
use cil_base::{Bytes, NoMemory};
use il_code::{Instr, Operand};

/// Writes a code: one byte, or FE and a second.
#[tactic(auto, unfolding(il_code::specs::CodeBytes::op_bytes))]
fn write_op(out: &mut Bytes, op: u16) -> Result<(), NoMemory>
    ensures ok { OnOk result (out.new ≡ out.old ++ op_bytes op) }
{
    if op < 0x100 {
        out.push(op as u8)
    } else {
        out.push((op / 0x100) as u8)?;
        out.push((op % 0x100) as u8)
    }
}

/// Writes an instruction that ends before a place. The token is that of its text.
#[tactic(auto, unfolding(il_code::specs::CodeBytes::instr_bytes))]
fn write_instr(
    out: &mut Bytes,
    places: &[u128],
    after: u32,
    token: u32,
    instr: &Instr,
) -> Result<(), NoMemory>
    requires { (i : ℕ) → instr_place places.now i ≤ 2 ^ 24 }
    ensures ok { OnOk result (out.new ≡ out.old ++ instr_bytes (instr_place places.now) after token instr.now) }
    ensures fits { OnOk result (InstrFits instr.now) }
{
    write_op(out, instr.op)?;
    write_operand(
        out,
        places,
        after,
        token,
        is_short(instr.op),
        &instr.operand,
    )
}

/// The token at an index, or 0 past the last.
fn token(texts: &[u32], index: usize) -> u32
    ensures { result ≡ slice_index texts.now index }
{
    if index < texts.len() { texts[index] } else { 0 }
}

/// How many texts an operand is: one or none.
pub(crate) fn text_count(operand: &Operand) -> usize
    ensures value { result ≡ length (operand_texts operand.now) }
    ensures small { result ≤ 1 }
{
    match operand {
        Operand::Text(_) => 1,
        _ => 0,
    }
}

/// Writes the instructions, with the tokens for their texts in order.
#[tactic(auto, unfolding(il_code::specs::CodeBytes::code_bytes))]
pub(crate) fn write_code(
    out: &mut Bytes,
    places: &[u128],
    code: &[Instr],
    texts: &[u32],
) -> Result<(), NoMemory>
    requires { (i : ℕ) → instr_place places.now i ≤ 2 ^ 24 }
    ensures ok { OnOk result (out.new ≡ out.old ++ code_bytes (instr_place places.now) texts.now code.now) }
    ensures fits { OnOk result (AllByRecursion InstrFits code.now) }
{
    let mut named = 0;
    for i in 0..code.len() {
        let instr = &code[i];
        write_instr(
            out,
            places,
            place_at(places, i + 1),
            token(texts, named),
            instr,
        )?;
        named += text_count(&instr.operand);
    }
    Ok(())
}
