ghost use Rattle.std.specs.Prelude.{◌≡◌, ◌≤◌, IfOk, length};
ghost use Rattle.cil_base.specs.inner.Reading.{compressed_at};
ghost use Rattle.attr_blob.specs.inner.Steps.{StandsAtFront};
ghost use Rattle.attr_blob.specs.inner.Reading.{little_at, text_at};

use cil_base::{Bytes, List, NoMemory, number_at, read_compressed};
use std::alloc::Global;

/// What stands at the front of the bytes, and the bytes after it.
pub(crate) type Front<'a, T> = Result<Option<(T, &'a [u8])>, NoMemory>;

/// The number in so many bytes, the lowest byte first.
pub(crate) fn read_little(bytes: &[u8], width: usize) -> Option<(u64, &[u8])>
    requires { (1 ≤ width) × (width ≤ 8) }
    ensures { StandsAtFront result (little_at width bytes.now) }
{
    if bytes.len() < width {
        return None;
    }
    Some((number_at(bytes, 0, width), &bytes[width..]))
}

/// The compressed number.
#[tactic(auto, using(crate::proofs::Leaves::number_found, crate::proofs::Leaves::number_missing))]
fn read_number(bytes: &[u8]) -> Option<(u32, &[u8])>
    ensures { StandsAtFront result (compressed_at bytes.now) }
{
    match read_compressed(bytes) {
        Some((number, len)) => Some((number, &bytes[len..])),
        None => None,
    }
}

/// The text: its length and as many bytes (ECMA-335 II.23.3).
pub(crate) fn read_text(alloc: Global, bytes: &[u8]) -> Front<'_, Bytes>
    ensures { IfOk result (λ found. StandsAtFront found (text_at bytes.now)) }
{
    let Some((len, rest)) = read_number(bytes) else {
        return Ok(None);
    };
    if rest.len() < len as usize {
        return Ok(None);
    }
    let (text, rest) = rest.split_at(len as usize);
    Ok(Some((List::from_slice(alloc, text)?, rest)))
}
