ghost use Rattle.std.specs.Prelude.{◌≡◌, ◌≤◌, ◌∷◌, IfOk};
ghost use Rattle.attr_blob.specs.declared.value.ArgType.TheViews.{out-ArgType};
ghost use Rattle.attr_blob.specs.Types.{enum_width, is_numeric, number_width, simple_fits, arg_type_fits};
ghost use Rattle.attr_blob.specs.inner.Steps.{StandsAtFront};
ghost use Rattle.attr_blob.specs.inner.Reading.{element_at, lacking, simple_at, arg_type_at};

use crate::read_leaf::{Front, read_text};
use crate::value::{ArgType, EnumWidth};
use cil_base::{Boxed, Bytes, NoMemory};
use std::alloc::Global;

/// Element types that stand before the type of an argument (ECMA-335 II.23.1.16, II.23.3).
pub(crate) const STRING: u8 = 0x0e;

pub(crate) const SZARRAY: u8 = 0x1d;

pub(crate) const SYSTEM_TYPE: u8 = 0x50;

pub(crate) const BOXED: u8 = 0x51;

pub(crate) const ENUM: u8 = 0x55;

/// Whether an element type is of a number, from BOOLEAN to R8.
pub(crate) fn is_numeric(elem: u8) -> bool
    ensures { result ≡ is_numeric elem }
{
    2 <= elem && elem <= 0x0d
}

/// How many bytes a number has.
pub(crate) fn number_width(elem: u8) -> usize
    ensures value { result ≡ number_width elem }
    ensures some { 1 ≤ result }
    ensures most { result ≤ 8 }
{
    match elem {
        0x02 | 0x04 | 0x05 => 1,
        0x03 | 0x06 | 0x07 => 2,
        0x08 | 0x09 | 0x0c => 4,
        _ => 8,
    }
}

/// Whether a type is no array and can be spelled.
fn simple_fits(ty: &ArgType) -> bool
    ensures { result ≡ simple_fits (out-ArgType ty.now) }
{
    match ty {
        ArgType::Prim(elem) => is_numeric(*elem),
        ArgType::Text | ArgType::SystemType | ArgType::Boxed => true,
        ArgType::Enum(name) => name.len() < 0x2000_0000,
        ArgType::Array(_) => false,
    }
}

/// Whether a type can be spelled.
#[tactic(auto, unfolding(crate::specs::Types::arg_type_fits))]
pub(crate) fn arg_type_fits(ty: &ArgType) -> bool
    ensures { result ≡ arg_type_fits ty.now }
{
    match ty {
        ArgType::Array(elem) => simple_fits(elem.get()),
        ArgType::Prim(elem) => is_numeric(*elem),
        ArgType::Text | ArgType::SystemType | ArgType::Boxed => true,
        ArgType::Enum(name) => name.len() < 0x2000_0000,
    }
}

/// The element type of an enum's numbers: of two widths of one name the first counts.
pub(crate) fn enum_width(widths: &[EnumWidth], name: &[u8]) -> Option<u8>
    ensures { result ≡ enum_width widths.now name.now }
{
    let width = widths.iter().find(|width| width.name.as_slice() == name)?;
    Some(width.elem)
}

/// The name of an enum type without a width.
#[tactic(auto, unfolding(crate::specs::inner::Reading::lacking))]
pub(crate) fn lacking(widths: &[EnumWidth], ty: &ArgType) -> Result<Option<Bytes>, NoMemory>
    ensures { IfOk result (λ name. name ≡ lacking widths.now ty.now) }
{
    match ty {
        ArgType::Enum(name) => match enum_width(widths, name.as_slice()) {
            Some(_) => Ok(None),
            None => Ok(Some(name.copy()?)),
        },
        _ => Ok(None),
    }
}

fn read_enum(alloc: Global, bytes: &[u8]) -> Front<'_, ArgType>
    ensures { IfOk result (λ found. StandsAtFront found (simple_at 0x55 bytes.now)) }
{
    match read_text(alloc, bytes)? {
        Some((name, rest)) => Ok(Some((ArgType::Enum(name), rest))),
        None => Ok(None),
    }
}

/// A type that is no array, by its first byte.
fn read_simple(alloc: Global, head: u8, rest: &[u8]) -> Front<'_, ArgType>
    ensures { IfOk result (λ found. StandsAtFront found (simple_at head rest.now)) }
{
    if is_numeric(head) {
        return Ok(Some((ArgType::Prim(head), rest)));
    }
    match head {
        STRING => Ok(Some((ArgType::Text, rest))),
        SYSTEM_TYPE => Ok(Some((ArgType::SystemType, rest))),
        BOXED => Ok(Some((ArgType::Boxed, rest))),
        ENUM => read_enum(alloc, rest),
        _ => Ok(None),
    }
}

fn read_element(alloc: Global, bytes: &[u8]) -> Front<'_, ArgType>
    ensures { IfOk result (λ found. StandsAtFront found (element_at bytes.now)) }
{
    match bytes {
        [head, rest @ ..] => read_simple(alloc, *head, rest),
        [] => Ok(None),
    }
}

#[tactic(auto, unfolding(crate::specs::inner::Reading::arg_type_at))]
fn read_array(alloc: Global, bytes: &[u8]) -> Front<'_, ArgType>
    ensures { IfOk result (λ found. StandsAtFront found (arg_type_at (0x1d ∷ bytes.now))) }
{
    match read_element(alloc, bytes)? {
        Some((elem, rest)) => Ok(Some((ArgType::Array(Boxed::new(alloc, elem)?), rest))),
        None => Ok(None),
    }
}

/// The type of an argument (ECMA-335 II.23.3).
#[tactic(auto, unfolding(crate::specs::inner::Reading::arg_type_at))]
pub(crate) fn read_type(alloc: Global, bytes: &[u8]) -> Front<'_, ArgType>
    ensures { IfOk result (λ found. StandsAtFront found (arg_type_at bytes.now)) }
{
    match bytes {
        [SZARRAY, rest @ ..] => read_array(alloc, rest),
        [head, rest @ ..] => read_simple(alloc, *head, rest),
        [] => Ok(None),
    }
}
