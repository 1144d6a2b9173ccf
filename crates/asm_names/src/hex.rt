ghost use Rattle.std.specs.Prelude.{◌≡◌, ◌++◌, ◌<◌, OnOk};
ghost use Rattle.cil_base.specs.Escape.{lower_hex};
ghost use Rattle.asm_names.specs.Assembly.{hex_text};

use cil_base::{Bytes, NoMemory};

/// The lower-case hex digit of a number below 16.
fn hex_digit(value: u8) -> u8
    requires { value < 16 }
    ensures { result ≡ lower_hex value }
{
    if value < 10 {
        b'0' + value
    } else {
        b'a' - 10 + value
    }
}

/// Adds two lower-case hex digits for each byte, the higher first.
pub(crate) fn add_hex(text: &mut Bytes, bytes: &[u8]) -> Result<(), NoMemory>
    ensures { OnOk result (text.new ≡ text.old ++ hex_text bytes.now) }
{
    for byte in bytes {
        text.extend(&[hex_digit(*byte / 16), hex_digit(*byte % 16)])?;
    }
    Ok(())
}
