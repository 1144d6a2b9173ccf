ghost use Rattle.std.specs.Prelude.{◌≡◌, ◌+◌, ◌<◌, ◌≤◌, ◌^◌, IfOk, IfNone, IfSome, length, take, drop};
ghost use Rattle.il_code.specs.Decoded.{body_at};
ghost use Rattle.il_code.specs.Numbering.{handlers_after};
ghost use Rattle.il_code.specs.Sections.{header_at};
ghost use Rattle.il_code.specs.Writable.{Writable};

use crate::handlers::read_sections;
use crate::header::read_header;
use crate::numbering::number_code;
use crate::read_code::read_code;
use cil_base::{List, NoMemory};
use il_code::{Body, Handler, Header, Places, places_of};
use std::alloc::Global;

/// The most handlers that a body has.
const MAX_HANDLERS: usize = 0xffff_ffff;

/// The body that the front of the bytes spells, with its texts from the heap #US; what follows the body is not read.
/// None exactly where no body is spelled: a bad header, an unknown code, a code that ends inside an instruction, a
/// target or the start of a filter that is no instruction's first byte, another bound that is neither that nor the end,
/// a text that is not there, another kind of section, other flags of a clause, missing bytes (ECMA-335 II.25.4). What
/// is read can be written by `encode_body` of `il_write`.
#[tactic(auto, unfolding(il_code::specs::Decoded::body_at, il_code::specs::Decoded::body_after, il_code::specs::Decoded::numbered_body, il_code::specs::Decoded::body_with))]
pub fn decode_body(alloc: Global, bytes: &[u8], users: &[u8]) -> Result<Option<Body>, NoMemory>
    ensures value { IfOk result (λ body. body ≡ body_at bytes.now users.now) }
    ensures writable { IfOk result (λ body. IfSome body Writable) }
{
    let Some(header) = read_header(bytes) else {
        return Ok(None);
    };
    let Some(code) = code_of(bytes, header.start, header.size) else {
        return Ok(None);
    };
    let Some(raw) = read_code(alloc, code, users)? else {
        return Ok(None);
    };
    let places = places_of(alloc, raw.as_slice())?;
    let Some(code) = number_code(&places, raw) else {
        return Ok(None);
    };
    let Some(handlers) = read_handlers(alloc, &places, bytes, &header)? else {
        return Ok(None);
    };
    if MAX_HANDLERS < handlers.len() {
        return Ok(None);
    }
    Ok(Some(Body {
        max_stack: header.max_stack,
        init_locals: header.init_locals,
        locals: header.locals,
        code,
        handlers,
    }))
}

/// The bytes of the code, where they are all there.
fn code_of(bytes: &[u8], start: u32, size: u32) -> Option<&[u8]>
    ensures value { IfSome result (λ code. code.now ≡ take size (drop start bytes.now)) }
    ensures there { IfSome result (λ code. start + size ≤ length bytes.now) }
    ensures small { IfSome result (λ code. length code.now < 2 ^ 32) }
    ensures none { IfNone result (length bytes.now < start + size) }
{
    let begin = start as usize;
    let len = size as usize;
    if begin + len <= bytes.len() {
        let rest = &bytes[begin..];
        Some(&rest[..len])
    } else {
        None
    }
}

/// The handlers, where the header says that there are sections behind the code, and none otherwise.
fn read_handlers(
    alloc: Global,
    places: &Places,
    bytes: &[u8],
    header: &Header,
) -> Result<Option<List<Handler>>, NoMemory>
    requires place { header.now.start + header.now.size ≤ length bytes.now }
    ensures { IfOk result (λ handlers. handlers
        ≡ handlers_after places.now.starts places.now.count bytes.now header.now) }
{
    if header.sections {
        let place = header.start as usize + header.size as usize;
        read_sections(alloc, places, bytes, place)
    } else {
        Ok(Some(List::new(alloc)))
    }
}
