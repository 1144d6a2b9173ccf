use crate::words::{bytes, found, number, shown, word};
use cil_base::{entry_at_front, units_at};
use md_heaps::{GuidAt, blob_at, guid_at, string_at};
use std::alloc::{AllocError, Global};

/// The answer to a case of a heap, an index after it.
pub(crate) fn answer(alloc: Global, line: &str) -> Result<Option<String>, AllocError> {
    let heap = bytes(alloc, line, 1)?;
    let heap = heap.as_slice();
    let index = number(line, 2);
    let answer = match word(line, 0) {
        "text" => found(alloc, string_at(heap, index))?,
        "blob" => found(alloc, blob_at(heap, index))?,
        "guid" => guid(alloc, guid_at(heap, index))?,
        "units" => found(alloc, units_at(heap, index))?,
        "entry" => found(alloc, entry_at_front(heap))?,
        _ => return Ok(None),
    };
    Ok(Some(answer))
}

fn guid(alloc: Global, guid: GuidAt) -> Result<String, AllocError> {
    match guid {
        GuidAt::Null => String::from_str(alloc, "null"),
        GuidAt::Is(bytes) => shown(alloc, &bytes),
        GuidAt::Missing => String::from_str(alloc, "missing"),
    }
}
