ghost use Rattle.std.specs.Prelude.{◌<◌};

use std::alloc::{AllocError, Global};

/// The word of a line at this place, empty where there are fewer.
pub(crate) fn word(line: &str, place: usize) -> &str {
    line.split(' ').nth(place).unwrap_or("")
}

/// The decimal number at this place, 0 where there is none.
pub(crate) fn number(line: &str, place: usize) -> u32 {
    word(line, place).parse::<u32>().unwrap_or(0)
}

/// The bytes whose hex digits stand at this place.
pub(crate) fn bytes(alloc: Global, line: &str, place: usize) -> Result<Vec<u8>, AllocError> {
    let mut bytes = Vec::new(alloc);
    for pair in word(line, place).as_bytes().chunks_exact(2) {
        if let [high, low] = pair {
            bytes.push(digit(*high) * 16 + digit(*low))?;
        }
    }
    Ok(bytes)
}

/// The value of a hex digit.
fn digit(byte: u8) -> u8
    ensures { result < 16 }
{
    match byte {
        b'0'..=b'9' => byte - b'0',
        b'a'..=b'f' => byte - b'a' + 10,
        _ => 0,
    }
}

/// The bytes in hex, in brackets.
pub(crate) fn shown(alloc: Global, bytes: &[u8]) -> Result<String, AllocError> {
    let mut text = String::from_str(alloc, "[")?;
    for byte in bytes {
        write!(text, "{byte:02x}")?;
    }
    text.push_str("]")?;
    Ok(text)
}

/// The same of bytes that may be missing.
pub(crate) fn found(alloc: Global, bytes: Option<&[u8]>) -> Result<String, AllocError> {
    match bytes {
        Some(bytes) => shown(alloc, bytes),
        None => String::from_str(alloc, "none"),
    }
}
