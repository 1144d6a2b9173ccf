use cil_base::{Bytes, List, NoMemory, Token};
use std::alloc::Global;

/// The word of a line at this place, empty where there are fewer.
pub fn word(line: &str, place: usize) -> &str {
    line.split(' ').nth(place).unwrap_or("")
}

/// The number of a table in hex.
pub fn table(text: &str) -> u8 {
    u8::from_str_radix(text, 16).unwrap_or(0)
}

/// The token of eight hex digits.
pub fn token(text: &str) -> Token {
    Token::from_number(u32::from_str_radix(text, 16).unwrap_or(0))
}

/// The byte of two hex digits.
fn byte(pair: &str) -> u8 {
    u8::from_str_radix(pair, 16).unwrap_or(0)
}

/// The bytes whose hex digits these are, with a comma between each two bytes.
pub fn bytes(alloc: Global, text: &str) -> Result<Bytes, NoMemory> {
    let mut bytes = List::new(alloc);
    for pair in text.split(',') {
        bytes.push(byte(pair))?;
    }
    Ok(bytes)
}
