ghost use Rattle.std.specs.Prelude.{◌≡◌, ◌++◌, replicate, IfOk, OnOk};
ghost use Rattle.std.specs.List.{flat_map};
ghost use Rattle.pe_write.specs.inner.Field.{field_bytes};
ghost use Rattle.pe_write.specs.Headers.{address};

use cil_base::{Bytes, List, NoMemory};
use std::alloc::Global;

/// A field of a header, or of the metadata. Numbers are little-endian.
#[derive(Clone, Copy)]
pub(crate) enum Field<'a> {
    Two(u16),
    Four(u32),
    /// Of eight bytes in PE32+, and of the lowest four in PE32.
    Address(bool, u64),
    Zeros(u32),
    Bytes(&'a [u8]),
}

/// Adds zeros.
fn push_zeros(out: &mut Bytes, count: u32) -> Result<(), NoMemory>
    ensures { OnOk result (out.new ≡ out.old ++ replicate count 0) }
{
    for _number in 0..count {
        out.push(0)?;
    }
    Ok(())
}

/// Adds an address.
fn push_address(out: &mut Bytes, plus: bool, number: u64) -> Result<(), NoMemory>
    ensures { OnOk result (out.new ≡ out.old ++ address plus number) }
{
    let bytes = number.to_le_bytes();
    if plus {
        out.extend(&bytes)
    } else {
        out.extend(&bytes[..4])
    }
}

/// Adds a field.
fn push_field(out: &mut Bytes, field: Field) -> Result<(), NoMemory>
    ensures { OnOk result (out.new ≡ out.old ++ field_bytes field.entry) }
{
    match field {
        Field::Two(number) => out.extend(&number.to_le_bytes()),
        Field::Four(number) => out.extend(&number.to_le_bytes()),
        Field::Address(plus, number) => push_address(out, plus, number),
        Field::Zeros(count) => push_zeros(out, count),
        Field::Bytes(bytes) => out.extend(bytes),
    }
}

/// The bytes of fields, one after the other.
pub(crate) fn join_fields(alloc: Global, fields: &[Field]) -> Result<Bytes, NoMemory>
    ensures { IfOk result (λ bytes. bytes ≡ flat_map field_bytes fields.now) }
{
    let mut out = List::new(alloc);
    for field in fields {
        push_field(&mut out, *field)?;
    }
    Ok(out)
}
