ghost use Rattle.std.specs.Prelude.{◌<◌};

use cil_base::{Bytes, List, NoMemory, Token};
use std::alloc::Global;

/// The word of a line at this place, empty where there are fewer.
pub(crate) fn word(line: &str, place: usize) -> &str {
    line.split(' ').nth(place).unwrap_or("")
}

/// The decimal number at this place, 0 where there is none.
pub(crate) fn number(line: &str, place: usize) -> u32 {
    word(line, place).parse::<u32>().unwrap_or(0)
}

/// The decimal number with a sign at this place, 0 where there is none.
pub(crate) fn signed(line: &str, place: usize) -> i32 {
    word(line, place).parse::<i32>().unwrap_or(0)
}

/// The token of eight hex digits.
pub(crate) fn token(text: &str) -> Token {
    Token::from_number(u32::from_str_radix(text, 16).unwrap_or(0))
}

/// The bytes whose hex digits these are.
pub(crate) fn bytes(alloc: Global, text: &str) -> Result<Bytes, NoMemory> {
    let mut bytes = List::new(alloc);
    for pair in text.as_bytes().chunks_exact(2) {
        if let [high, low] = pair {
            bytes.push(digit(*high) * 16 + digit(*low))?;
        }
    }
    Ok(bytes)
}

/// The value of a hex digit.
fn digit(byte: u8) -> u8
    ensures { result < 16 }
{
    match byte {
        b'0'..=b'9' => byte - b'0',
        b'a'..=b'f' => byte - b'a' + 10,
        _ => 0,
    }
}

/// The tokens from the word at this place on.
pub(crate) fn tokens_from(
    alloc: Global,
    line: &str,
    place: usize,
) -> Result<List<Token>, NoMemory> {
    let mut tokens = List::new(alloc);
    for text in line.split(' ').skip(place) {
        tokens.push(token(text))?;
    }
    Ok(tokens)
}

/// The names from the word at this place on.
pub(crate) fn names_from(alloc: Global, line: &str, place: usize) -> Result<List<Bytes>, NoMemory> {
    let mut names = List::new(alloc);
    for text in line.split(' ').skip(place) {
        names.push(List::from_slice(alloc, text.as_bytes())?)?;
    }
    Ok(names)
}
