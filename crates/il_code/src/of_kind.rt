ghost use Rattle.std.specs.Prelude.{◌≡◌, ◌↔◌, Some as some, IsTrue};
ghost use Rattle.il_code.specs.Instructions.{kind_of};
ghost use Rattle.il_code.specs.Sound.{fits_kind};
ghost use Rattle.il_code.specs.Writable.{IsOfKind};

use crate::kind::OperandKind;
use crate::op::operand_kind;
use crate::operand::Operand;

/// Whether two kinds are the same.
fn same_kind(kind: OperandKind, other: OperandKind) -> bool
    ensures { IsTrue result ↔ (some kind ≡ some other) }
{
    kind == other
}

/// Whether an operand is of a kind.
fn is_of(kind: OperandKind, operand: &Operand) -> bool
    ensures { IsTrue result ↔ IsOfKind (some kind) operand.now }
{
    match operand {
        Operand::None => same_kind(kind, OperandKind::NoOperand),
        Operand::U8(_) => same_kind(kind, OperandKind::U8),
        Operand::U16(_) => same_kind(kind, OperandKind::U16),
        Operand::I8(_) => same_kind(kind, OperandKind::I8),
        Operand::I32(_) => same_kind(kind, OperandKind::I32),
        Operand::I64(_) => same_kind(kind, OperandKind::I64),
        Operand::R4(_) => same_kind(kind, OperandKind::R4),
        Operand::R8(_) => same_kind(kind, OperandKind::R8),
        Operand::Tok(_) => same_kind(kind, OperandKind::Token),
        Operand::Text(_) => same_kind(kind, OperandKind::Text),
        Operand::Target(_) => {
            same_kind(kind, OperandKind::ShortBranch) || same_kind(kind, OperandKind::Branch)
        }
        Operand::Switch(_) => same_kind(kind, OperandKind::Switch),
    }
}

/// Whether an operand is one of a code's kind. No operand is one of a code that no instruction has (ECMA-335 VI.C.2).
#[tactic(auto, using(crate::proofs::KindLemmas::fits_by))]
pub fn is_of_kind(op: u16, operand: &Operand) -> bool
    ensures value { result ≡ fits_kind (kind_of op) operand.now }
    ensures of { IsTrue result ↔ IsOfKind (kind_of op) operand.now }
{
    match operand_kind(op) {
        Some(kind) => is_of(kind, operand),
        None => false,
    }
}
