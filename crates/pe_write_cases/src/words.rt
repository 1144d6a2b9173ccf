use cil_base::{Bytes, List, NoMemory};
use std::alloc::Global;

/// The number of a word in hex.
pub(crate) fn number(words: &[&str], place: usize) -> Option<u64> {
    let word = words.get(place).copied()?;
    u64::from_str_radix(word, 16).ok()
}

/// The same of two bytes, and of four.
pub(crate) fn two(words: &[&str], place: usize) -> Option<u16> {
    u16::try_from(number(words, place)?).ok()
}

pub(crate) fn four(words: &[&str], place: usize) -> Option<u32> {
    u32::try_from(number(words, place)?).ok()
}

/// The bytes repeated so many times.
fn repeated(alloc: Global, count: &str, hex: &str) -> Result<Option<Vec<u8>>, NoMemory> {
    let (Ok(count), Ok(unit)) = (count.parse::<u32>(), hex::decode(alloc, hex)) else {
        return Ok(None);
    };
    let mut bytes = Vec::new(alloc);
    for _ in 0..count {
        bytes.extend_from_slice(unit.as_slice())?;
    }
    Ok(Some(bytes))
}

/// The bytes of a word.
pub(crate) fn bytes(
    alloc: Global,
    words: &[&str],
    place: usize,
) -> Result<Option<Bytes>, NoMemory> {
    let text = words.get(place).copied().unwrap_or("?");
    let found = match text.split_once('*') {
        Some((count, hex)) => repeated(alloc, count, hex)?,
        None => hex::decode(alloc, text.strip_prefix('-').unwrap_or(text)).ok(),
    };
    match found {
        Some(bytes) => Ok(Some(List::from_vec(bytes))),
        None => Ok(None),
    }
}
