use cil_base::{Bytes, List, NoMemory, Token};
use std::alloc::Global;

/// The word of a part of a line at this place, empty where there are fewer.
pub fn word(part: &str, place: usize) -> &str {
    part.split(' ').nth(place).unwrap_or("")
}

/// The decimal number of a text, 0 where it is none.
pub fn number(text: &str) -> u64 {
    text.parse::<u64>().unwrap_or(0)
}

/// The decimal number of a text, 0 where it is none.
pub fn count(text: &str) -> u32 {
    text.parse::<u32>().unwrap_or(0)
}

/// The number of a table in hex.
pub fn table(text: &str) -> u8 {
    u8::from_str_radix(text, 16).unwrap_or(0)
}

/// The token of eight hex digits.
pub fn token(text: &str) -> Token {
    Token::from_number(u32::from_str_radix(text, 16).unwrap_or(0))
}

/// The tokens of the words of a part from a place on.
pub fn tokens(alloc: Global, part: &str, first: usize) -> Result<List<Token>, NoMemory> {
    let mut tokens = List::new(alloc);
    for word in part.split(' ').skip(first) {
        tokens.push(token(word))?;
    }
    Ok(tokens)
}

/// A text, in which `~` stands for a space.
pub fn text(alloc: Global, word: &str) -> Result<Bytes, NoMemory> {
    let mut text = List::new(alloc);
    for byte in word.as_bytes() {
        text.push(if *byte == b'~' { b' ' } else { *byte })?;
    }
    Ok(text)
}

/// The bytes whose hex digits these are.
pub fn bytes(alloc: Global, text: &str) -> Result<Bytes, NoMemory> {
    match hex::decode(alloc, text) {
        Ok(bytes) => List::from_slice(alloc, bytes.as_slice()),
        Err(_) => Ok(List::new(alloc)),
    }
}
