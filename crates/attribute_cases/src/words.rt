use attr_blob::{ArgType, EnumWidth};
use cil_base::{Boxed, List, NoMemory};
use std::alloc::Global;

/// An element type in hex.
fn element(word: &str) -> Option<u8> {
    u8::from_str_radix(word, 16).ok()
}

/// A type that is no array; none where the word is of no type.
fn simple(alloc: Global, word: &str) -> Result<Option<ArgType>, NoMemory> {
    if let Some(name) = word.strip_prefix("enum:") {
        let name = List::from_slice(alloc, name.as_bytes())?;
        return Ok(Some(ArgType::Enum(name)));
    }
    match word {
        "text" => Ok(Some(ArgType::Text)),
        "type" => Ok(Some(ArgType::SystemType)),
        "boxed" => Ok(Some(ArgType::Boxed)),
        _ => match element(word) {
            Some(elem) => Ok(Some(ArgType::Prim(elem))),
            None => Ok(None),
        },
    }
}

fn arg_type(alloc: Global, word: &str) -> Result<Option<ArgType>, NoMemory> {
    let name = word.trim_start_matches("[]");
    let Some(mut ty) = simple(alloc, name)? else {
        return Ok(None);
    };
    for _ in 0..(word.len().saturating_sub(name.len())) / 2 {
        ty = ArgType::Array(Boxed::new(alloc, ty)?);
    }
    Ok(Some(ty))
}

/// The types of a line; none where a word is of no type.
pub fn types(alloc: Global, words: &str) -> Result<Option<List<ArgType>>, NoMemory> {
    let mut types = List::new(alloc);
    for word in words.split_whitespace() {
        match arg_type(alloc, word)? {
            Some(ty) => types.push(ty)?,
            None => return Ok(None),
        }
    }
    Ok(Some(types))
}

/// The widths of a line; none where a word is of none.
pub fn widths(alloc: Global, words: &str) -> Result<Option<List<EnumWidth>>, NoMemory> {
    let mut widths = List::new(alloc);
    for word in words.split_whitespace() {
        let (name, elem) = word.split_once('=').unwrap_or((word, ""));
        let Some(elem) = element(elem) else {
            return Ok(None);
        };
        let name = List::from_slice(alloc, name.as_bytes())?;
        widths.push(EnumWidth { name, elem })?;
    }
    Ok(Some(widths))
}
