ghost use Rattle.std.specs.Prelude.{◌≡◌, ◌+◌, IfOk, option_copied};
ghost use Rattle.md_schema.specs.Tables.{manifest_resource};
ghost use Rattle.node_model.specs.Resources.{bytes_here, counted_bytes, read_resource, resource_by};
ghost use Rattle.node_model.specs.Streams.{image_streams};
ghost use Rattle.node_read.specs.inner.Opened.{IsRowThere};
ghost use Rattle.pe_image.specs.CliHeader.{resources_rva};

use crate::cell::reference_cell;
use crate::columns::{resource_implementation, resource_offset};
use crate::front::first_bytes;
use crate::image::Image;
use cil_base::{List, NoMemory, Token, from_index, number_within};
use md_schema::{CodedKind, decode_coded};
use node_model::{Cell, Fault, FaultKind, Key, ResourceValue, Slot, Value};
use std::alloc::Global;

/// The bytes after a length of four bytes. None where the length or the bytes are not there.
fn counted_bytes(bytes: &[u8]) -> Option<&[u8]>
    ensures { option_copied result ≡ counted_bytes bytes.now }
{
    let Some(size) = number_within(bytes, 0, 4) else {
        return None;
    };
    first_bytes(from_index(bytes, 4), size as usize)
}

/// The resource of this image at an offset from the RVA of the resources. None where it is not there.
fn resource_here(
    alloc: Global,
    image: &Image,
    offset: u32,
) -> Result<Option<ResourceValue>, NoMemory>
    ensures { IfOk result (λ value. value ≡ bytes_here image.now (resources_rva image.now + offset)) }
{
    let Some(rva) = image.resources().checked_add(offset) else {
        return Ok(None);
    };
    match counted_bytes(image.bytes_at(rva)) {
        Some(bytes) => Ok(Some(ResourceValue::Here(List::from_slice(alloc, bytes)?))),
        None => Ok(None),
    }
}

/// The resource by its Implementation: of this image where it is null, and elsewhere where it names a row.
fn resource_by(
    alloc: Global,
    image: &Image,
    offset: u32,
    implementation: Option<Cell>,
) -> Result<Option<ResourceValue>, NoMemory>
    ensures { IfOk result (λ value. value ≡ resource_by image.now offset implementation) }
{
    match implementation {
        Some(Cell::NoRef) => resource_here(alloc, image, offset),
        Some(Cell::Ref(_)) => Ok(Some(ResourceValue::Elsewhere(offset))),
        _ => Ok(None),
    }
}

/// What a manifest resource names (ECMA-335 II.22.24).
#[tactic(auto, unfolding(node_model::specs::Resources::read_resource))]
pub(crate) fn read_resource(alloc: Global, image: &Image, token: Token) -> Result<Slot, NoMemory>
    requires row { IsRowThere (image_streams image.now) token }
    requires table { token.table ≡ manifest_resource }
    ensures { IfOk result (λ slot. slot ≡ read_resource (image_streams image.now) image.now token) }
{
    let streams = image.streams();
    let offset = resource_offset(&streams, token);
    let number = resource_implementation(&streams, token);
    let coded = decode_coded(CodedKind::Implementation, number);
    match resource_by(alloc, image, offset, reference_cell(&streams, coded))? {
        Some(value) => Ok(Slot::Value(Value::Resource(value))),
        None => Ok(Slot::Fault(Fault {
            key: Key::Resource(token),
            kind: FaultKind::BadResource,
            column: 0,
        })),
    }
}
