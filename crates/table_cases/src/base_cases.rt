use crate::words::{bytes, number, shown, word};
use cil_base::{
    Token, escape, number_within, read_compressed, read_signed, write_compressed, write_signed,
};
use std::alloc::{AllocError, Global};

/// The answer to a case of numbers, tokens or texts.
pub(crate) fn answer(alloc: Global, line: &str) -> Result<Option<String>, AllocError> {
    let answer = match word(line, 0) {
        "number" => stored(alloc, line)?,
        "token" => token(alloc, number(line, 1))?,
        "read" => read(alloc, line)?,
        "write" => write(alloc, number(line, 1))?,
        "read_signed" => signed(alloc, line)?,
        "write_signed" => written(alloc, line)?,
        "escape" => escaped(alloc, line)?,
        _ => return Ok(None),
    };
    Ok(Some(answer))
}

fn stored(alloc: Global, line: &str) -> Result<String, AllocError> {
    let width = number(line, 3) as usize;
    if width == 0 || width > 8 {
        return String::from_str(alloc, "no width");
    }
    let bytes = bytes(alloc, line, 1)?;
    let found = number_within(bytes.as_slice(), number(line, 2) as usize, width);
    format!(in alloc; "{found:?}")
}

fn token(alloc: Global, number: u32) -> Result<String, AllocError> {
    let token = Token::from_number(number);
    let back = token.number();
    let digits = token.hex_digits();
    let hex = std::str::from_utf8(&digits).unwrap_or("");
    format!(in alloc; "{hex} {back}")
}

fn read(alloc: Global, line: &str) -> Result<String, AllocError> {
    let bytes = bytes(alloc, line, 1)?;
    let found = read_compressed(bytes.as_slice());
    format!(in alloc; "{found:?}")
}

fn write(alloc: Global, number: u32) -> Result<String, AllocError> {
    if number >= 0x2000_0000 {
        return String::from_str(alloc, "too large");
    }
    shown(alloc, write_compressed(number).as_slice())
}

fn signed(alloc: Global, line: &str) -> Result<String, AllocError> {
    let bytes = bytes(alloc, line, 1)?;
    let found = read_signed(bytes.as_slice());
    format!(in alloc; "{found:?}")
}

fn written(alloc: Global, line: &str) -> Result<String, AllocError> {
    let number = word(line, 1).parse::<i32>().unwrap_or(0);
    if !(-0x1000_0000..0x1000_0000).contains(&number) {
        return String::from_str(alloc, "too large");
    }
    shown(alloc, write_signed(number).as_slice())
}

fn escaped(alloc: Global, line: &str) -> Result<String, AllocError> {
    let bytes = bytes(alloc, line, 1)?;
    match escape(alloc, bytes.as_slice()) {
        Ok(text) => String::from_str(alloc, std::str::from_utf8(text.as_slice()).unwrap_or("")),
        Err(_) => String::from_str(alloc, "no memory"),
    }
}
