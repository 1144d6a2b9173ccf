use crate::content::put;
use crate::many::many;
use cil_base::NoMemory;
use md_heaps::HeapBuilder;
use std::alloc::Global;

/// The bytes of a heap in hex: all up to 64, else the first 24, the last 8 and the size.
fn shown(alloc: Global, heap: &[u8]) -> Result<String, NoMemory> {
    if heap.len() <= 64 {
        return Ok(hex::encode(alloc, heap)?);
    }
    let front = hex::encode(alloc, &heap[..24])?;
    let back = hex::encode(alloc, &heap[heap.len() - 8..])?;
    Ok(format!(in alloc; "{front}..{back}/{}", heap.len())?)
}

/// The finished heaps, each after a bar.
fn finished(alloc: Global, heaps: HeapBuilder) -> Result<String, NoMemory> {
    let heaps = heaps.finish()?;
    let strings = shown(alloc, heaps.strings.as_slice())?;
    let users = shown(alloc, heaps.users.as_slice())?;
    let guids = shown(alloc, heaps.guids.as_slice())?;
    let blobs = shown(alloc, heaps.blobs.as_slice())?;
    Ok(format!(in alloc; "| {strings} | {users} | {guids} | {blobs}")?)
}

/// The index of each content, and a space after it; none where a word is no content.
fn put_all(alloc: Global, heaps: &mut HeapBuilder, line: &str) -> Result<Option<String>, NoMemory> {
    let mut indexes = String::new(alloc);
    for word in line.split_whitespace() {
        let Some(index) = put(alloc, heaps, word)? else {
            return Ok(None);
        };
        let text = format!(in alloc; "{index} ")?;
        indexes.push_str(text.as_str())?;
    }
    Ok(Some(indexes))
}

/// The indexes of the contents, and the finished heaps; none where a word is no content.
fn built(alloc: Global, line: &str) -> Result<Option<String>, NoMemory> {
    let mut heaps = HeapBuilder::new(alloc)?;
    let Some(mut answer) = put_all(alloc, &mut heaps, line)? else {
        return Ok(None);
    };
    let heaps = finished(alloc, heaps)?;
    answer.push_str(heaps.as_str())?;
    Ok(Some(answer))
}

/// The answer to a case; none where the line is no case.
pub fn answer(alloc: Global, line: &str) -> Result<Option<String>, NoMemory> {
    match line.strip_prefix("many ") {
        Some(counts) => many(alloc, counts),
        None => built(alloc, line),
    }
}
