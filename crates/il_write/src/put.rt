ghost use Rattle.std.specs.Prelude.{◌≡◌, ◌++◌, ◌*◌, ◌+◌, ◌≤◌, ◌^◌, OnOk};
ghost use Rattle.byteorder.specs.Endian.{little_bytes};
ghost use Rattle.cil_base.specs.Token.{token_number as number_of_token};
ghost use Rattle.il_write.specs.inner.Ranges.{TokenFits};

use cil_base::{Bytes, NoMemory, Token};

/// Appends the lowest bytes of a number, as many as the width, the lowest first.
pub(crate) fn put(out: &mut Bytes, width: usize, number: u64) -> Result<(), NoMemory>
    requires { width ≤ 8 }
    ensures ok { OnOk result (out.new ≡ out.old ++ little_bytes width number) }
{
    let bytes = number.to_le_bytes();
    out.extend(&bytes[..width])
}

/// A token as a number: the table in the highest byte of four.
pub(crate) fn token_number(token: Token) -> u32
    ensures value { result ≡ number_of_token token }
    ensures fits { TokenFits token }
{
    token.number()
}
