ghost use Rattle.std.specs.Prelude.{◌≡◌, IfOk};

use cil_base::{List, NoMemory, Token};

/// What stands after an instruction's code. Targets are the numbers of instructions, counted from 0 (ECMA-335
/// III.1.7.2).
#[derive(Drop, PartialEq, Eq)]
pub enum Operand {
    None,
    U8(u8),
    U16(u16),
    I8(i8),
    I32(i32),
    I64(i64),
    /// The bits of a float.
    R4(u32),
    /// The bits of a float.
    R8(u64),
    Tok(Token),
    /// The UTF-16 units of a user string.
    Text(List<u16>),
    Target(u32),
    Switch(List<u32>),
}

impl Operand {
    /// An equal operand of its own.
    pub fn copy(&self) -> Result<Operand, NoMemory>
        ensures { IfOk result (λ operand. operand ≡ self.now) }
    {
        match self {
            Operand::None => Ok(Operand::None),
            Operand::U8(value) => Ok(Operand::U8(*value)),
            Operand::U16(value) => Ok(Operand::U16(*value)),
            Operand::I8(value) => Ok(Operand::I8(*value)),
            Operand::I32(value) => Ok(Operand::I32(*value)),
            Operand::I64(value) => Ok(Operand::I64(*value)),
            Operand::R4(bits) => Ok(Operand::R4(*bits)),
            Operand::R8(bits) => Ok(Operand::R8(*bits)),
            Operand::Tok(token) => Ok(Operand::Tok(*token)),
            Operand::Text(units) => Ok(Operand::Text(units.copy()?)),
            Operand::Target(target) => Ok(Operand::Target(*target)),
            Operand::Switch(targets) => Ok(Operand::Switch(targets.copy()?)),
        }
    }
}
