use crate::print::add_value;
use crate::words::{types, widths};
use attr_blob::{AttrRead, decode_attr, encode_attr};
use cil_base::{Bytes, List, NoMemory};
use std::alloc::Global;

/// The lines of an answer: the value is copied before it is spelled, so that a copy is seen too.
fn text_of(alloc: Global, read: &AttrRead) -> Result<Bytes, NoMemory> {
    let mut out = List::new(alloc);
    match read {
        AttrRead::Value(value) => {
            out.extend(b"value ")?;
            let copy = value.copy()?;
            add_value(&copy, &mut out)?;
            out.extend(b" = ")?;
            let bytes = encode_attr(alloc, &copy)?;
            let text = hex::encode(alloc, bytes.as_slice())?;
            out.extend(text.as_bytes())?;
        }
        AttrRead::Unknown(name) => {
            out.extend(b"unknown ")?;
            out.extend(name.as_slice())?;
        }
        AttrRead::Bad => out.extend(b"bad")?,
    }
    Ok(out)
}

/// The answer to a case.
pub fn answer(alloc: Global, line: &str) -> Result<Bytes, NoMemory> {
    let mut fields = line.split('|');
    let params = types(alloc, fields.next().unwrap_or(""))?;
    let widths = widths(alloc, fields.next().unwrap_or(""))?;
    let blob = hex::decode(alloc, fields.next().unwrap_or("")).ok();
    match (params, widths, blob) {
        (Some(params), Some(widths), Some(blob)) => {
            let read = decode_attr(alloc, &params, &widths, blob.as_slice())?;
            text_of(alloc, &read)
        }
        _ => List::from_slice(alloc, b"no case"),
    }
}
