ghost use Rattle.std.specs.Prelude.{◌≡◌, ◌≤◌, ◌^◌, ◌++◌, ◌<◌, OnOk, length};
ghost use Rattle.il_write.specs.inner.Ranges.{TokenFits};
ghost use Rattle.il_code.specs.HeaderBytes.{flags_of, has_handlers, header_bytes, is_tiny as is_tiny_body};

use crate::put::{put, token_number};
use cil_base::{Bytes, NoMemory};
use il_code::Body;
use il_code::format::{
    FAT_FORMAT, FAT_WORDS, INIT_LOCALS, MORE_SECTS, TINY_FORMAT, TINY_SIZE, TINY_STACK, WORDS,
};

/// Whether a body with so many bytes of code has a header of one byte.
fn is_tiny(body: &Body, size: u32) -> bool
    ensures { result ≡ is_tiny_body body.now size }
{
    body.max_stack == TINY_STACK
        && !body.init_locals
        && token_number(body.locals) == 0
        && body.handlers.is_empty()
        && size < TINY_SIZE
}

/// The flags of a header of twelve bytes.
fn flags(body: &Body) -> u16
    ensures { result ≡ flags_of body.now }
{
    let init_locals = if body.init_locals { INIT_LOCALS } else { 0 };
    let sections = if body.handlers.is_empty() {
        0
    } else {
        MORE_SECTS
    };
    FAT_WORDS * WORDS + FAT_FORMAT as u16 + init_locals + sections
}

/// Writes the header of a body with so many bytes of code.
#[tactic(auto, unfolding(il_code::specs::HeaderBytes::header_bytes))]
pub(crate) fn write_header(out: &mut Bytes, body: &Body, size: u32) -> Result<(), NoMemory>
    ensures ok { OnOk result (out.new ≡ out.old ++ header_bytes body.now size) }
    ensures stack { OnOk result (body.now.max_stack < 2 ^ 16) }
    ensures locals { OnOk result (TokenFits body.now.locals) }
{
    let max_stack = body.max_stack;
    let locals = token_number(body.locals);
    if is_tiny(body, size) {
        return put(out, 1, size as u64 * 4 + TINY_FORMAT as u64);
    }
    put(out, 2, flags(body) as u64)?;
    put(out, 2, max_stack as u64)?;
    put(out, 4, size as u64)?;
    put(out, 4, locals as u64)?;
    Ok(())
}
