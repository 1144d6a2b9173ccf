ghost use Rattle.std.specs.Prelude.{◌≡◌, ◌+◌, ◌<◌, ◌^◌, IfOk};
ghost use Rattle.il_code.specs.Code.{size_of, operand_width, target_count};

use crate::kind::OperandKind;
use crate::op::operand_kind;
use crate::operand::Operand;
use cil_base::{List, NoMemory};

/// An instruction: its code, which is 0xFE00 + the second byte where it has two, and what follows it.
#[derive(Drop, PartialEq, Eq)]
pub struct Instr {
    pub op: u16,
    pub operand: Operand,
}

impl Instr {
    /// An equal instruction of its own.
    pub fn copy(&self) -> Result<Instr, NoMemory>
        ensures { IfOk result (λ instr. instr ≡ self.now) }
    {
        let operand = self.operand.copy()?;
        Ok(Instr {
            op: self.op,
            operand,
        })
    }

    /// How many bytes it takes: its code and its operand (ECMA-335 III.1.9). A switch of 2^32 targets takes more than
    /// 2^32 of them.
    #[tactic(auto, unfolding(crate::specs::Code::size_of, crate::specs::Code::code_size))]
    pub fn size(&self) -> u128
        ensures value { result ≡ size_of self.now }
        ensures bound { result < 2 ^ 67 }
    {
        let code: u128 = if self.op < 0x100 { 1 } else { 2 };
        match operand_kind(self.op) {
            Some(kind) => code + width(kind, &self.operand),
            None => code,
        }
    }
}

/// Equal instructions of their own.
pub(crate) fn copy_code(code: &List<Instr>) -> Result<List<Instr>, NoMemory>
    ensures { IfOk result (λ all. all ≡ code.now) }
{
    let mut all = List::new(code.allocator());
    for instr in code.as_slice() {
        all.push(instr.copy()?)?;
    }
    Ok(all)
}

/// How many bytes an operand of a kind takes.
fn width(kind: OperandKind, operand: &Operand) -> u128
    ensures value { result ≡ operand_width kind operand.now }
    ensures bound { result < 2 ^ 66 + 8 }
{
    match kind {
        OperandKind::NoOperand => 0,
        OperandKind::U8 | OperandKind::I8 | OperandKind::ShortBranch => 1,
        OperandKind::U16 => 2,
        OperandKind::I32
        | OperandKind::R4
        | OperandKind::Token
        | OperandKind::Text
        | OperandKind::Branch => 4,
        OperandKind::I64 | OperandKind::R8 => 8,
        OperandKind::Switch => 4 + 4 * targets(operand) as u128,
    }
}

/// How many targets an operand has.
fn targets(operand: &Operand) -> usize
    ensures { result ≡ target_count operand.now }
{
    match operand {
        Operand::Switch(targets) => targets.len(),
        _ => 0,
    }
}
