ghost use Rattle.std.specs.Prelude.{◌≡◌};
ghost use Rattle.il_code.specs.Instructions.{kind_of};

use crate::kind::OperandKind;
use crate::table::row_of;

/// What follows a code, which is 0xFE00 + its second byte where it has two. None where no instruction has the code.
#[tactic(auto, unfolding(crate::specs::Instructions::kind_of))]
pub fn operand_kind(code: u16) -> Option<OperandKind>
    ensures { result ≡ kind_of code }
{
    let row = row_of(code)?;
    Some(row.kind)
}
