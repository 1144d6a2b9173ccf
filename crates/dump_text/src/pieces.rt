ghost use Rattle.std.specs.Prelude.{◌≡◌, ◌++◌, ◌<◌, OnOk};
ghost use Rattle.std.specs.Fmt.{decimal, signed_decimal};
ghost use Rattle.std.specs.List.{list_all};
ghost use Rattle.asm_names.specs.Assembly.{hex_text};
ghost use Rattle.asm_names.specs.Guid.{guid_text};
ghost use Rattle.cil_base.specs.Escape.{escaped, escaped_byte, lower_hex};
ghost use Rattle.dump_text.specs.Pieces.{flag_text, quoted};
ghost use Rattle.dump_text.specs.inner.Plain.{is_unescaped};

use asm_names::guid_text;
use cil_base::{Bytes, NoMemory};
use itoa::Buffer;

/// Adds a number in decimal.
pub(crate) fn add_decimal(text: &mut Bytes, number: u64) -> Result<(), NoMemory>
    ensures { OnOk result (text.new ≡ text.old ++ decimal number) }
{
    let mut buffer = Buffer::new();
    text.extend(buffer.format(number).as_bytes())
}

/// Adds a number with its sign in decimal.
pub(crate) fn add_signed(text: &mut Bytes, number: i64) -> Result<(), NoMemory>
    ensures { OnOk result (text.new ≡ text.old ++ signed_decimal number) }
{
    let mut buffer = Buffer::new();
    text.extend(buffer.format(number).as_bytes())
}

/// Adds `1` or `0`.
pub(crate) fn add_flag(text: &mut Bytes, flag: bool) -> Result<(), NoMemory>
    ensures { OnOk result (text.new ≡ text.old ++ flag_text flag) }
{
    if flag {
        text.extend(b"1")
    } else {
        text.extend(b"0")
    }
}

/// The lower-case hex digit of a number below 16.
fn hex_digit(value: u8) -> u8
    requires { value < 16 }
    ensures { result ≡ lower_hex value }
{
    if value < 10 {
        b'0' + value
    } else {
        b'a' - 10 + value
    }
}

/// Adds two hex digits for each byte, the higher first.
pub(crate) fn add_hex(text: &mut Bytes, bytes: &[u8]) -> Result<(), NoMemory>
    ensures { OnOk result (text.new ≡ text.old ++ hex_text bytes.now) }
{
    for byte in bytes {
        text.extend(&[hex_digit(*byte / 16), hex_digit(*byte % 16)])?;
    }
    Ok(())
}

/// Adds the escaped form of one byte.
fn add_byte(text: &mut Bytes, byte: u8) -> Result<(), NoMemory>
    ensures { OnOk result (text.new ≡ text.old ++ escaped_byte byte) }
{
    match byte {
        b'"' | b'\\' => text.extend(&[b'\\', byte]),
        0x20..=0x7e => text.push(byte),
        _ => text.extend(&[b'\\', b'x', hex_digit(byte / 16), hex_digit(byte % 16)]),
    }
}

/// Whether a byte stands in quotes as it is.
fn is_unescaped(byte: u8) -> bool
    ensures { result ≡ is_unescaped byte }
{
    !(byte == b'"' || byte == b'\\') && (0x20 <= byte && byte <= 0x7e)
}

/// Whether all these bytes stand in quotes as they are.
fn are_plain(bytes: &[u8]) -> bool
    ensures { result ≡ list_all is_unescaped bytes.now }
{
    bytes.iter().all(|byte| is_unescaped(*byte))
}

/// Adds a text, escaped. Most texts stand as they are, and are added at once.
#[tactic(auto, using(crate::proofs::PlainLemmas::all_plain))]
fn add_escaped(text: &mut Bytes, bytes: &[u8]) -> Result<(), NoMemory>
    ensures { OnOk result (text.new ≡ text.old ++ escaped bytes.now) }
{
    if are_plain(bytes) {
        return text.extend(bytes);
    }
    for byte in bytes {
        add_byte(text, *byte)?;
    }
    Ok(())
}

/// Adds a text, escaped and in quotes.
pub(crate) fn add_quoted(text: &mut Bytes, bytes: &[u8]) -> Result<(), NoMemory>
    ensures { OnOk result (text.new ≡ text.old ++ quoted bytes.now) }
{
    text.push(b'"')?;
    add_escaped(text, bytes)?;
    text.push(b'"')
}

/// Adds a GUID as it is stored.
pub(crate) fn add_guid(text: &mut Bytes, bytes: [u8; 16]) -> Result<(), NoMemory>
    ensures { OnOk result (text.new ≡ text.old ++ guid_text bytes) }
{
    let digits = guid_text(text.allocator(), bytes)?;
    text.extend(digits.as_slice())
}
