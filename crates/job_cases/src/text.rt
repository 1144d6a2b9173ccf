//! Pieces of an answer, each added to one buffer. Numbers are decimal; tokens, bytes and units are in hex.

use cil_base::{Bytes, NoMemory, Token};
use std::alloc::AllocError;

/// Want of memory, told in this library's own type.
fn wanting(_error: AllocError) -> NoMemory {
    NoMemory
}

/// Adds a number.
pub fn add_number(text: &mut Bytes, number: u64) -> Result<(), NoMemory> {
    let digits = format!(in text.allocator(); "{number}").map_err(wanting)?;
    text.extend(digits.as_bytes())
}

/// Adds a number with its sign.
pub fn add_signed(text: &mut Bytes, number: i64) -> Result<(), NoMemory> {
    let digits = format!(in text.allocator(); "{number}").map_err(wanting)?;
    text.extend(digits.as_bytes())
}

/// Adds a space and a number.
pub fn add_next(text: &mut Bytes, number: u64) -> Result<(), NoMemory> {
    text.push(b' ')?;
    add_number(text, number)
}

/// Adds a token.
pub fn add_token(text: &mut Bytes, token: Token) -> Result<(), NoMemory> {
    text.extend(&token.hex_digits())
}

/// Adds two digits for each byte.
pub fn add_hex(text: &mut Bytes, bytes: &[u8]) -> Result<(), NoMemory> {
    let digits = hex::encode(text.allocator(), bytes).map_err(wanting)?;
    text.extend(digits.as_bytes())
}

/// Adds `t/` and a text in hex.
pub fn add_text(text: &mut Bytes, bytes: &[u8]) -> Result<(), NoMemory> {
    text.extend(b"t/")?;
    add_hex(text, bytes)
}
