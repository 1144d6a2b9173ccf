ghost use Rattle.std.specs.Prelude.{◌≡◌, IfOk, IfSome, option_copied};
ghost use Rattle.md_schema.specs.Tables.{class_layout, field, field_rva};
ghost use Rattle.node_model.specs.Data.{bytes_there, class_size, data_size, field_sig_size, first_class_size};
ghost use Rattle.node_model.specs.Data.{named_field, prim_size, read_data, type_size};
ghost use Rattle.md_schema.specs.Reference.{index_of};
ghost use Rattle.node_model.specs.Cells.{reference_cell};
ghost use Rattle.node_model.specs.Streams.{image_streams};
ghost use Rattle.node_read.specs.inner.FieldData.{data_bytes};
ghost use Rattle.node_read.specs.inner.Opened.{IsFirstThere, IsRowThere, streams_of};

use crate::cell::reference_cell;
use crate::columns::{class_size_of, data_field, data_rva};
use crate::front::first_bytes;
use crate::image::Image;
use crate::linked::linked_rows;
use crate::signature::sig_of;
use crate::streams::Streams;
use cil_base::{Bytes, List, NoMemory, Token};
use md_schema::{ColumnKind, Link, decode_reference, table};
use node_model::{Cell, Fault, FaultKind, Key, Slot, Value};
use sig_tree::{SigTree, TypeSig};
use std::alloc::Global;

/// The bytes of a primitive type, by its element type (ECMA-335 II.23.1.16).
fn prim_size(code: u8) -> Option<u32>
    ensures { result ≡ prim_size code }
{
    match code {
        0x02 | 0x04 | 0x05 => Some(1),
        0x03 | 0x06 | 0x07 => Some(2),
        0x08 | 0x09 | 0x0c => Some(4),
        0x0a | 0x0b | 0x0d => Some(8),
        _ => None,
    }
}

/// The ClassSize of the first of these ClassLayout rows.
#[tactic(auto, using(crate::proofs::KeyLemmas::first_none, crate::proofs::KeyLemmas::first_size))]
fn first_class_size(streams: &Streams, rows: &[Token]) -> Option<u32>
    requires { IsFirstThere (streams_of streams.now) class_layout rows.now }
    ensures { result ≡ first_class_size (streams_of streams.now) rows.now }
{
    match rows.first() {
        Some(row) => Some(class_size_of(streams, *row)),
        None => None,
    }
}

/// The bytes of a value type: the ClassSize of the first ClassLayout row of a TypeDef (ECMA-335 II.22.8).
#[tactic(auto, unfolding(node_model::specs::Data::class_size))]
fn class_size(alloc: Global, streams: &Streams, token: Token) -> Result<Option<u32>, NoMemory>
    ensures { IfOk result (λ size. size ≡ class_size (streams_of streams.now) token) }
{
    if token.table != table::TYPE_DEF {
        return Ok(None);
    }
    let rows = linked_rows(alloc, streams, token, Link::ClassLayout)?;
    Ok(first_class_size(streams, rows.as_slice()))
}

/// The bytes of a type: modifiers are passed over, and most types have no size.
fn type_size(alloc: Global, streams: &Streams, sig: &TypeSig) -> Result<Option<u32>, NoMemory>
    ensures { IfOk result (λ size. size ≡ type_size (streams_of streams.now) sig.now) }
{
    match sig {
        TypeSig::Prim(code) => Ok(prim_size(*code)),
        TypeSig::Value(token) => class_size(alloc, streams, *token),
        TypeSig::Mod { inner, .. } => type_size(alloc, streams, inner.get()),
        _ => Ok(None),
    }
}

/// The cell of a number of a column that names a field.
fn field_cell(streams: &Streams, number: u32) -> Option<Cell>
    ensures { result ≡ reference_cell streams.now.tables.now (index_of field number) }
{
    match decode_reference(ColumnKind::Index(table::FIELD), number) {
        Some(coded) => reference_cell(streams, coded),
        None => None,
    }
}

/// The row that a cell names. None where it names none.
fn named_row(cell: &Option<Cell>) -> Option<Token>
    ensures { result ≡ named_field cell.now }
{
    match cell {
        Some(Cell::Ref(token)) => Some(*token),
        _ => None,
    }
}

/// The field that a number of such a column names. None where it names none.
fn field_named(streams: &Streams, number: u32) -> Option<Token>
    ensures field { result ≡ named_field (reference_cell streams.now.tables.now (index_of field number)) }
    ensures there { IfSome result (IsRowThere (streams_of streams.now)) }
{
    named_row(&field_cell(streams, number))
}

/// The bytes of a field by its signature.
fn field_sig_size(alloc: Global, streams: &Streams, sig: &SigTree) -> Result<Option<u32>, NoMemory>
    ensures { IfOk result (λ size. size ≡ field_sig_size (streams_of streams.now) sig.now) }
{
    match sig {
        SigTree::Field(sig) => type_size(alloc, streams, sig),
        _ => Ok(None),
    }
}

/// The bytes of the type of the field that a FieldRVA row names.
#[tactic(auto, unfolding(node_model::specs::Data::data_size))]
fn data_size(alloc: Global, streams: &Streams, token: Token) -> Result<Option<u32>, NoMemory>
    requires row { IsRowThere (streams_of streams.now) token }
    requires table { token.table ≡ field_rva }
    ensures { IfOk result (λ size. size ≡ data_size (streams_of streams.now) token) }
{
    let Some(field) = field_named(streams, data_field(streams, token)) else {
        return Ok(None);
    };
    match sig_of(alloc, streams, field)? {
        Some(sig) => field_sig_size(alloc, streams, sig.tree()),
        None => Ok(None),
    }
}

/// So many bytes from an RVA that is not 0.
fn bytes_there(image: &Image, rva: u32, size: u32) -> Option<&[u8]>
    ensures { option_copied result ≡ bytes_there image.now rva size }
{
    if rva == 0 {
        return None;
    }
    first_bytes(image.bytes_at(rva), size as usize)
}

/// The bytes of a field. None where its type has no size, or there are fewer bytes at the RVA.
fn data_bytes(alloc: Global, image: &Image, token: Token) -> Result<Option<Bytes>, NoMemory>
    requires row { IsRowThere (image_streams image.now) token }
    requires table { token.table ≡ field_rva }
    ensures { IfOk result (λ bytes. bytes ≡ data_bytes (image_streams image.now) image.now token) }
{
    let streams = image.streams();
    let Some(size) = data_size(alloc, &streams, token)? else {
        return Ok(None);
    };
    match bytes_there(image, data_rva(&streams, token), size) {
        Some(bytes) => Ok(Some(List::from_slice(alloc, bytes)?)),
        None => Ok(None),
    }
}

/// The data of a field (ECMA-335 II.22.18).
#[tactic(auto, unfolding(node_model::specs::Data::read_data))]
pub(crate) fn read_data(alloc: Global, image: &Image, token: Token) -> Result<Slot, NoMemory>
    requires row { IsRowThere (image_streams image.now) token }
    requires table { token.table ≡ field_rva }
    ensures { IfOk result (λ slot. slot ≡ read_data (image_streams image.now) image.now token) }
{
    match data_bytes(alloc, image, token)? {
        Some(bytes) => Ok(Slot::Value(Value::Data(bytes))),
        None => Ok(Slot::Fault(Fault {
            key: Key::Data(token),
            kind: FaultKind::BadData,
            column: 0,
        })),
    }
}
