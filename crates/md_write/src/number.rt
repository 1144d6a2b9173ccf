ghost use Rattle.std.specs.Prelude.{◌≡◌, ◌≤◌, ◌++◌, OnOk};
ghost use Rattle.byteorder.specs.Endian.{little_bytes};

use cil_base::{Bytes, NoMemory};

/// Adds the lowest bytes of a number, as many as the width, the lowest first.
pub(crate) fn push_number(out: &mut Bytes, number: u32, width: u8) -> Result<(), NoMemory>
    requires { width ≤ 4 }
    ensures { OnOk result (out.new ≡ out.old ++ little_bytes width number) }
{
    let bytes = number.to_le_bytes();
    out.extend(&bytes[..width as usize])
}
