ghost use Rattle.std.specs.Prelude.{◌≡◌, IfOk};
ghost use Rattle.il_code.specs.Decoded.{body_at};
ghost use Rattle.md_schema.specs.Tables.{method_def};
ghost use Rattle.node_model.specs.Bodies.{body_slot, read_body};
ghost use Rattle.node_read.specs.inner.Opened.{IsRowThere};
ghost use Rattle.node_model.specs.Streams.{image_streams};
ghost use Rattle.pe_image.specs.Sections.{bytes_from};

use crate::columns::{method_impl_flags, method_rva};
use crate::image::Image;
use cil_base::{NoMemory, Token};
use il_read::decode_body;
use node_model::{BodyValue, Fault, FaultKind, Key, Slot, Value};
use std::alloc::Global;

/// The bits of ImplFlags that say which code a method has, 0 for IL (ECMA-335 II.23.1.11).
const CODE_TYPE_MASK: u32 = 3;

/// The body that the bytes at an RVA spell, or BadBody.
fn il_slot(alloc: Global, image: &Image, token: Token, rva: u32) -> Result<Slot, NoMemory>
    ensures { IfOk result (λ slot.
        slot ≡ body_slot token (body_at (bytes_from image.now rva) (image_streams image.now).users)) }
{
    match decode_body(alloc, image.bytes_at(rva), image.streams().users)? {
        Some(body) => Ok(Slot::Value(Value::Body(BodyValue::Il(body)))),
        None => Ok(Slot::Fault(Fault {
            key: Key::Body(token),
            kind: FaultKind::BadBody,
            column: 0,
        })),
    }
}

/// What a method has for a body (ECMA-335 II.22.26, II.25.4).
#[tactic(auto, unfolding(node_model::specs::Bodies::read_body))]
pub(crate) fn read_body(alloc: Global, image: &Image, token: Token) -> Result<Slot, NoMemory>
    requires row { IsRowThere (image_streams image.now) token }
    requires table { token.table ≡ method_def }
    ensures { IfOk result (λ slot. slot ≡ read_body (image_streams image.now) image.now token) }
{
    let streams = image.streams();
    let rva = method_rva(&streams, token);
    if rva == 0 {
        return Ok(Slot::Value(Value::Body(BodyValue::NoBody)));
    }
    if method_impl_flags(&streams, token) & CODE_TYPE_MASK != 0 {
        return Ok(Slot::Value(Value::Body(BodyValue::Native(rva))));
    }
    il_slot(alloc, image, token, rva)
}
