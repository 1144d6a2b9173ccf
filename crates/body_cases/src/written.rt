use cil_base::{List, NoMemory};
use il_code::{Body, BodyRefusal};
use il_write::{encode_body, is_writable};
use std::alloc::Global;
use std::fmt::Write;

/// The most bytes that are shown whole.
const WHOLE: usize = 64;

/// The bytes that a body is written as, or why not.
pub fn body(alloc: Global, body: &Body, texts: &List<u32>) -> Result<String, NoMemory> {
    if !is_writable(body, texts) {
        return Ok(String::from_str(alloc, "unsound")?);
    }
    match encode_body(alloc, body, texts) {
        Ok(bytes) => hex(alloc, bytes.as_slice()),
        Err(BodyRefusal::BranchTooFar(number)) => Ok(format!(in alloc; "far {number}")?),
        Err(BodyRefusal::BodyTooLarge(size)) => Ok(format!(in alloc; "large {size}")?),
        Err(BodyRefusal::NoMemory) => Err(NoMemory),
    }
}

/// Bytes in hex: all of them, or their number and the first sixteen.
fn hex(alloc: Global, bytes: &[u8]) -> Result<String, NoMemory> {
    let mut text = String::new(alloc);
    let mut shown = bytes.len();
    if WHOLE < shown {
        write!(text, "{shown} ")?;
        shown = 16;
    }
    for byte in bytes.iter().take(shown) {
        write!(text, "{byte:02x}")?;
    }
    Ok(text)
}
