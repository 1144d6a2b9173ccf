ghost use Rattle.std.specs.Prelude.{◌<◌};

use cil_base::{Bytes, List, NoMemory};
use std::alloc::Global;

/// The word of a line at this place, empty where there are fewer.
pub fn word(line: &str, place: usize) -> &str {
    line.split(' ').nth(place).unwrap_or("")
}

/// The part of a word at this place, between slashes.
pub fn part(word: &str, place: usize) -> &str {
    word.split('/').nth(place).unwrap_or("")
}

/// The decimal number of a text, 0 where it is none.
pub fn number(text: &str) -> u32 {
    text.parse::<u32>().unwrap_or(0)
}

/// The number of a text in hex, 0 where it is none.
pub fn hex(text: &str) -> u32 {
    u32::from_str_radix(text, 16).unwrap_or(0)
}

/// The code of an instruction in hex.
pub fn code(text: &str) -> u16 {
    u16::from_str_radix(text, 16).unwrap_or(0)
}

/// The bytes whose hex digits these are.
pub fn bytes(alloc: Global, text: &str) -> Result<Bytes, NoMemory> {
    let mut bytes = List::new(alloc);
    for pair in text.as_bytes().chunks_exact(2) {
        if let [high, low] = pair {
            bytes.push(digit(*high) * 16 + digit(*low))?;
        }
    }
    Ok(bytes)
}

/// The value of a hex digit.
fn digit(byte: u8) -> u8
    ensures { result < 16 }
{
    match byte {
        b'0'..=b'9' => byte - b'0',
        b'a'..=b'f' => byte - b'a' + 10,
        _ => 0,
    }
}

/// The tokens of texts from the word at this place on, in hex.
pub fn tokens_from(alloc: Global, line: &str, place: usize) -> Result<List<u32>, NoMemory> {
    let mut tokens = List::new(alloc);
    for text in line.split(' ').skip(place) {
        tokens.push(hex(text))?;
    }
    Ok(tokens)
}
