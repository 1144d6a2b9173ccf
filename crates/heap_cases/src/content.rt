ghost use Rattle.std.specs.Prelude.{◌≡◌, ◌==◌, IfOk};
ghost use Rattle.std.specs.List.{list_any};

use cil_base::NoMemory;
use md_heaps::HeapBuilder;
use std::alloc::Global;

/// The bytes repeated so many times.
fn repeated(alloc: Global, count: &str, hex: &str) -> Result<Option<Vec<u8>>, NoMemory> {
    let (Ok(count), Ok(unit)) = (count.parse::<u16>(), hex::decode(alloc, hex)) else {
        return Ok(None);
    };
    let mut bytes = Vec::new(alloc);
    for _ in 0..count {
        bytes.extend_from_slice(unit.as_slice())?;
    }
    Ok(Some(bytes))
}

/// The bytes of a content; none where it is neither hex nor a count and hex.
fn bytes(alloc: Global, text: &str) -> Result<Option<Vec<u8>>, NoMemory> {
    match text.split_once('*') {
        Some((count, hex)) => repeated(alloc, count, hex),
        None => Ok(hex::decode(alloc, text).ok()),
    }
}

fn has_zero(text: &[u8]) -> bool
    ensures { result ≡ list_any (λ byte. byte == 0) text.now }
{
    text.iter().any(|byte| *byte == 0)
}

/// The index of a text; none where it has a zero byte.
pub fn put_text(heaps: &mut HeapBuilder, text: &[u8]) -> Result<Option<u64>, NoMemory> {
    if has_zero(text) {
        return Ok(None);
    }
    let index = heaps.text(text)?;
    Ok(Some(index))
}

fn put_blob(heaps: &mut HeapBuilder, blob: &[u8]) -> Result<Option<u64>, NoMemory> {
    if blob.len() >= 0x2000_0000 {
        return Ok(None);
    }
    let index = heaps.blob(blob)?;
    Ok(Some(index))
}

fn put_guid(heaps: &mut HeapBuilder, guid: &[u8]) -> Result<Option<u64>, NoMemory> {
    let (Some(bytes), 16) = (guid.first_chunk::<16>(), guid.len()) else {
        return Ok(None);
    };
    let number = heaps.guid(*bytes)?;
    Ok(Some(number))
}

/// Units of two bytes, the low one first.
fn units(alloc: Global, bytes: &[u8]) -> Result<Vec<u16>, NoMemory> {
    let mut units = Vec::new(alloc);
    let mut low = None;
    for byte in bytes {
        low = match low {
            None => Some(*byte),
            Some(low) => {
                units.push(u16::from_le_bytes([low, *byte]))?;
                None
            }
        };
    }
    Ok(units)
}

fn put_user(alloc: Global, heaps: &mut HeapBuilder, bytes: &[u8]) -> Result<Option<u64>, NoMemory> {
    let units = units(alloc, bytes)?;
    if units.len() >= 0x1000_0000 {
        return Ok(None);
    }
    let index = heaps.user(units.as_slice())?;
    Ok(Some(index))
}

/// The index of the content that a word names; none where it names none.
pub fn put(alloc: Global, heaps: &mut HeapBuilder, word: &str) -> Result<Option<u64>, NoMemory> {
    let (heap, content) = word.split_once(':').unwrap_or((word, ""));
    let Some(content) = bytes(alloc, content)? else {
        return Ok(None);
    };
    match heap {
        "text" => put_text(heaps, content.as_slice()),
        "user" => put_user(alloc, heaps, content.as_slice()),
        "guid" => put_guid(heaps, content.as_slice()),
        "blob" => put_blob(heaps, content.as_slice()),
        _ => Ok(None),
    }
}
