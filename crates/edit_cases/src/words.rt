ghost use Rattle.std.specs.Prelude.{◌<◌};

use cil_base::{Bytes, List, NoMemory, Token};
use std::alloc::Global;

/// The word of a line at this place, empty where there are fewer.
pub fn word(line: &str, place: usize) -> &str {
    line.split(' ').nth(place).unwrap_or("")
}

/// The part of a word at this place, between slashes.
pub fn part(word: &str, place: usize) -> &str {
    word.split('/').nth(place).unwrap_or("")
}

/// The decimal number of a text, 0 where it is none.
pub fn number(text: &str) -> u32 {
    text.parse::<u32>().unwrap_or(0)
}

/// The decimal number of a text, 0 where it is none.
pub fn large_number(text: &str) -> u64 {
    text.parse::<u64>().unwrap_or(0)
}

/// The decimal number of a text, 0 where it is none.
pub fn small_number(text: &str) -> u16 {
    text.parse::<u16>().unwrap_or(0)
}

/// The number of a text in hex, 0 where it is none.
pub fn hex(text: &str) -> u32 {
    u32::from_str_radix(text, 16).unwrap_or(0)
}

/// The number of a text in hex, 0 where it is none.
pub fn small_hex(text: &str) -> u16 {
    u16::from_str_radix(text, 16).unwrap_or(0)
}

/// The number of a table in hex.
pub fn table(text: &str) -> u8 {
    u8::from_str_radix(text, 16).unwrap_or(0)
}

/// The token of eight hex digits.
pub fn token(text: &str) -> Token {
    Token::from_number(hex(text))
}

/// The bytes whose hex digits these are.
pub fn bytes(alloc: Global, text: &str) -> Result<Bytes, NoMemory> {
    let mut bytes = List::new(alloc);
    for pair in text.as_bytes().chunks_exact(2) {
        if let [high, low] = pair {
            bytes.push(byte(*high, *low))?;
        }
    }
    Ok(bytes)
}

/// The units whose hex digits these are, four for each.
pub fn units(alloc: Global, text: &str) -> Result<List<u16>, NoMemory> {
    let mut units = List::new(alloc);
    for unit in text.as_bytes().chunks_exact(4) {
        if let [first, second, third, last] = unit {
            let high = byte(*first, *second);
            let low = byte(*third, *last);
            units.push(u16::from(high) * 0x100 + u16::from(low))?;
        }
    }
    Ok(units)
}

/// The byte of two hex digits.
fn byte(high: u8, low: u8) -> u8 {
    digit(high) * 16 + digit(low)
}

/// The value of a hex digit.
fn digit(byte: u8) -> u8
    ensures { result < 16 }
{
    match byte {
        b'0'..=b'9' => byte - b'0',
        b'a'..=b'f' => byte - b'a' + 10,
        _ => 0,
    }
}
