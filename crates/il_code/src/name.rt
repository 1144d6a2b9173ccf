ghost use Rattle.std.specs.Prelude.{◌≡◌, option_map};
ghost use Rattle.il_code.specs.Instructions.{instr_name};

use crate::table::row_of;

/// The name of the instruction with a code, which is 0xFE00 + its second byte where it has two. None where no
/// instruction has the code (ECMA-335 III).
#[tactic(auto, unfolding(crate::specs::Instructions::instr_name))]
pub fn op_name(code: u16) -> Option<&'static str>
    ensures { option_map (λ name. name.now) result ≡ instr_name code }
{
    let row = row_of(code)?;
    Some(row.name)
}
