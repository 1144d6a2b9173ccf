ghost use Rattle.std.specs.Prelude.{◌≡◌, ◌<◌, ◌++◌, IfOk, OnOk};
ghost use Rattle.cil_base.specs.Escape.{escaped, escaped_byte, lower_hex};

use crate::list::{Bytes, List};
use crate::no_memory::NoMemory;
use std::alloc::Global;

/// A text of ASCII for any bytes: 20 to 7E stand as they are, but `"` and `\` have a `\` before them; each other byte is `\x`
/// and two lower-case hex digits.
pub fn escape(alloc: Global, bytes: &[u8]) -> Result<Bytes, NoMemory>
    ensures { IfOk result (λ text. text ≡ escaped bytes.now) }
{
    let mut text = List::new(alloc);
    for byte in bytes {
        escape_byte(*byte, &mut text)?;
    }
    Ok(text)
}

/// Adds the escaped form of one byte.
fn escape_byte(byte: u8, text: &mut Bytes) -> Result<(), NoMemory>
    ensures { OnOk result (text.new ≡ text.old ++ escaped_byte byte) }
{
    match byte {
        b'"' | b'\\' => text.extend(&[b'\\', byte]),
        0x20..=0x7e => text.push(byte),
        _ => text.extend(&[b'\\', b'x', hex_digit(byte / 16), hex_digit(byte % 16)]),
    }
}

/// The lower-case hex digit of a number below 16.
pub(crate) fn hex_digit(value: u8) -> u8
    requires { value < 16 }
    ensures { result ≡ lower_hex value }
{
    if value < 10 {
        b'0' + value
    } else {
        b'a' - 10 + value
    }
}
