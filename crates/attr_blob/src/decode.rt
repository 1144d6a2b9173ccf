ghost use Rattle.std.specs.Prelude.{◌≡◌, IfOk};
ghost use Rattle.attr_blob.specs.Decoded.{attr_at};
ghost use Rattle.attr_blob.specs.inner.Steps.{FoundAt, StandsAtFront};
ghost use Rattle.attr_blob.specs.inner.Reading.{after_fixed, fixed_at, many_items_at, mark_at, named_at, named_value};
ghost use Rattle.attr_blob.specs.inner.Reading.{value_at};

use crate::read_arg::{Found, read_arg};
use crate::read_leaf::{read_little, read_text};
use crate::stop::Stop;
use crate::types::{lacking, read_type};
use crate::value::{Arg, ArgType, AttrRead, AttrValue, EnumWidth, NamedArg};
use cil_base::{List, NoMemory};
use std::alloc::Global;

/// The greatest depth of an argument.
const DEPTH_LIMIT: u32 = 64;

/// What the blob of an attribute says, whose constructor has parameters of these types. `Value` exactly where a value
/// with these types and widths spells the whole blob; `Unknown` exactly where the bytes spell the arguments before it
/// and the next type is an enum without a width, or an array of such that has an element; `Bad` in all other cases. Of
/// two widths of one name the first counts (ECMA-335 II.23.3).
#[tactic(auto, unfolding(crate::specs::Decoded::attr_at))]
pub fn decode_attr(
    alloc: Global,
    params: &List<ArgType>,
    widths: &List<EnumWidth>,
    blob: &[u8],
) -> Result<AttrRead, NoMemory>
    ensures { IfOk result (λ read. read ≡ attr_at params.now widths.now blob.now) }
{
    match read_value(alloc, params.as_slice(), widths.as_slice(), blob)? {
        Ok((value, rest)) => match rest {
            [] => Ok(AttrRead::Value(value)),
            _ => Ok(AttrRead::Bad),
        },
        Err(Stop::Lacks(name)) => Ok(AttrRead::Unknown(name)),
        Err(Stop::Fails) => Ok(AttrRead::Bad),
    }
}

#[tactic(auto, unfolding(crate::specs::inner::Reading::value_at))]
fn read_value<'a>(
    alloc: Global,
    params: &[ArgType],
    widths: &[EnumWidth],
    bytes: &'a [u8],
) -> Found<'a, AttrValue>
    ensures { IfOk result (λ found. FoundAt found (value_at params.now widths.now bytes.now)) }
{
    let Some((prolog, rest)) = read_little(bytes, 2) else {
        return Ok(Err(Stop::Fails));
    };
    if prolog != 1 {
        return Ok(Err(Stop::Fails));
    }
    match read_fixed(alloc, params, widths, rest)? {
        Ok((fixed, after)) => read_after_fixed(alloc, widths, fixed, after),
        Err(stop) => Ok(Err(stop)),
    }
}

/// The arguments of the constructor.
#[tactic(auto, using(crate::proofs::Depth::one_more_fixed, crate::proofs::Depth::no_more_fixed, crate::proofs::Depth::none_before))]
fn read_fixed<'a>(
    alloc: Global,
    params: &[ArgType],
    widths: &[EnumWidth],
    bytes: &'a [u8],
) -> Found<'a, List<Arg>>
    ensures { IfOk result (λ found. FoundAt found (fixed_at widths.now params.now bytes.now)) }
{
    let mut fixed = List::new(alloc);
    let mut rest = bytes;
    for ty in params {
        match read_arg(alloc, widths, ty, rest, DEPTH_LIMIT)? {
            Ok((arg, after)) => {
                fixed.push(arg)?;
                rest = after;
            }
            Err(stop) => return Ok(Err(stop)),
        }
    }
    Ok(Ok((fixed, rest)))
}

fn read_after_fixed<'a>(
    alloc: Global,
    widths: &[EnumWidth],
    fixed: List<Arg>,
    bytes: &'a [u8],
) -> Found<'a, AttrValue>
    ensures { IfOk result (λ found. FoundAt found (after_fixed widths.now fixed bytes.now)) }
{
    let Some((count, rest)) = read_little(bytes, 2) else {
        return Ok(Err(Stop::Fails));
    };
    match read_all_named(alloc, widths, count, rest)? {
        Ok((named, after)) => Ok(Ok((AttrValue { fixed, named }, after))),
        Err(stop) => Ok(Err(stop)),
    }
}

#[tactic(auto, using(crate::proofs::Depth::one_more, crate::proofs::Depth::no_more, crate::proofs::Depth::none_before))]
fn read_all_named<'a>(
    alloc: Global,
    widths: &[EnumWidth],
    count: u64,
    bytes: &'a [u8],
) -> Found<'a, List<NamedArg>>
    ensures { IfOk result (λ found. FoundAt found (many_items_at (named_at widths.now) count bytes.now)) }
{
    let mut named = List::new(alloc);
    let mut rest = bytes;
    for index in 0..count {
        match read_named(alloc, widths, rest)? {
            Ok((arg, after)) => {
                named.push(arg)?;
                rest = after;
            }
            Err(stop) => return Ok(Err(stop)),
        }
    }
    Ok(Ok((named, rest)))
}

/// Whether a property is named, and not a field.
fn read_mark(bytes: &[u8]) -> Option<(bool, &[u8])>
    ensures { StandsAtFront result (mark_at bytes.now) }
{
    match bytes {
        [0x53, rest @ ..] => Some((false, rest)),
        [0x54, rest @ ..] => Some((true, rest)),
        _ => None,
    }
}

#[tactic(auto, unfolding(crate::specs::inner::Reading::named_at))]
fn read_named<'a>(alloc: Global, widths: &[EnumWidth], bytes: &'a [u8]) -> Found<'a, NamedArg>
    ensures { IfOk result (λ found. FoundAt found (named_at widths.now bytes.now)) }
{
    let Some((property, rest)) = read_mark(bytes) else {
        return Ok(Err(Stop::Fails));
    };
    let Some((ty, after)) = read_type(alloc, rest)? else {
        return Ok(Err(Stop::Fails));
    };
    match lacking(widths, &ty)? {
        Some(name) => Ok(Err(Stop::Lacks(name))),
        None => read_named_value(alloc, widths, property, ty, after),
    }
}

/// The name and the value of a named argument, after its type.
fn read_named_value<'a>(
    alloc: Global,
    widths: &[EnumWidth],
    property: bool,
    ty: ArgType,
    bytes: &'a [u8],
) -> Found<'a, NamedArg>
    ensures { IfOk result (λ found. FoundAt found (named_value widths.now property ty bytes.now)) }
{
    let Some((name, rest)) = read_text(alloc, bytes)? else {
        return Ok(Err(Stop::Fails));
    };
    match read_arg(alloc, widths, &ty, rest, DEPTH_LIMIT)? {
        Ok((value, after)) => {
            let named = NamedArg {
                property,
                ty,
                name,
                value,
            };
            Ok(Ok((named, after)))
        }
        Err(stop) => Ok(Err(stop)),
    }
}
