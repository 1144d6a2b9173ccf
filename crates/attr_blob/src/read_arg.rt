ghost use Rattle.std.specs.Prelude.{◌≡◌, IfOk};
ghost use Rattle.attr_blob.specs.declared.value.ArgType.TheViews.{out-ArgType};
ghost use Rattle.attr_blob.specs.Types.{enum_width};
ghost use Rattle.attr_blob.specs.inner.Steps.{FoundAt, StandsAtFront};
ghost use Rattle.attr_blob.specs.inner.Reading.{arg_at, array_arg, boxed_arg, enum_of, items_arg, arg_level_at};
ghost use Rattle.attr_blob.specs.inner.Reading.{many_items_at, nullable_at, text_arg};

use crate::read_leaf::{Front, read_little, read_text};
use crate::stop::Stop;
use crate::types::{arg_type_fits, enum_width, is_numeric, number_width, read_type};
use crate::value::{Arg, ArgType, EnumWidth};
use cil_base::{Boxed, Bytes, List, NoMemory};
use std::alloc::Global;

/// What was read, and the bytes after it, or why nothing was.
pub(crate) type Found<'a, T> = Result<Result<(T, &'a [u8]), Stop>, NoMemory>;

/// The byte that stands for no text.
const NULL: u8 = 0xff;

/// The count that stands for no array.
const NULL_COUNT: u64 = 0xffff_ffff;

/// The text, or none.
fn read_nullable(alloc: Global, bytes: &[u8]) -> Front<'_, Option<Bytes>>
    ensures { IfOk result (λ found. StandsAtFront found (nullable_at bytes.now)) }
{
    match bytes {
        [head, rest @ ..] => {
            if *head == NULL {
                return Ok(Some((None, rest)));
            }
            match read_text(alloc, bytes)? {
                Some((text, rest)) => Ok(Some((Some(text), rest))),
                None => Ok(None),
            }
        }
        [] => Ok(None),
    }
}

fn read_text_arg(alloc: Global, bytes: &[u8]) -> Found<'_, Arg>
    ensures { IfOk result (λ found. FoundAt found (text_arg Arg.Text Arg.NullText bytes.now)) }
{
    let Some((text, rest)) = read_nullable(alloc, bytes)? else {
        return Ok(Err(Stop::Fails));
    };
    match text {
        Some(text) => Ok(Ok((Arg::Text(text), rest))),
        None => Ok(Ok((Arg::NullText, rest))),
    }
}

fn read_type_name(alloc: Global, bytes: &[u8]) -> Found<'_, Arg>
    ensures { IfOk result (λ found. FoundAt found (text_arg Arg.TypeName Arg.NullType bytes.now)) }
{
    let Some((name, rest)) = read_nullable(alloc, bytes)? else {
        return Ok(Err(Stop::Fails));
    };
    match name {
        Some(name) => Ok(Ok((Arg::TypeName(name), rest))),
        None => Ok(Ok((Arg::NullType, rest))),
    }
}

fn read_enum<'a>(widths: &[EnumWidth], name: &Bytes, bytes: &'a [u8]) -> Found<'a, Arg>
    ensures { IfOk result (λ found. FoundAt found (enum_of name.now (enum_width widths.now name.now) bytes.now)) }
{
    let Some(elem) = enum_width(widths, name.as_slice()) else {
        return Ok(Err(Stop::Lacks(name.copy()?)));
    };
    if !is_numeric(elem) {
        return Ok(Err(Stop::Fails));
    }
    let Some((bits, rest)) = read_little(bytes, number_width(elem)) else {
        return Ok(Err(Stop::Fails));
    };
    let name = name.copy()?;
    Ok(Ok((Arg::Enum { name, elem, bits }, rest)))
}

/// The argument of that type, of at most that depth.
#[cycle(read)]
#[tactic(auto, using(crate::proofs::Depth::at_zero, crate::proofs::Depth::at_unfit, crate::proofs::Depth::at_level))]
pub(crate) fn read_arg<'a>(
    alloc: Global,
    widths: &[EnumWidth],
    ty: &ArgType,
    bytes: &'a [u8],
    depth: u32,
) -> Found<'a, Arg>
    ensures { IfOk result (λ found. FoundAt found (arg_at widths.now depth ty.now bytes.now)) }
{
    if depth == 0 || !arg_type_fits(ty) {
        return Ok(Err(Stop::Fails));
    }
    read_level(alloc, widths, ty, bytes, depth - 1)
}

/// The argument of that type, with parts of at most that depth.
#[cycle(read)]
#[tactic(auto, unfolding(crate::specs::inner::Reading::arg_level_at))]
fn read_level<'a>(
    alloc: Global,
    widths: &[EnumWidth],
    ty: &ArgType,
    bytes: &'a [u8],
    depth: u32,
) -> Found<'a, Arg>
    ensures { IfOk result (λ found.
        FoundAt found (arg_level_at widths.now (arg_at widths.now depth) (out-ArgType ty.now) bytes.now)) }
{
    match ty {
        ArgType::Prim(elem) => match read_little(bytes, number_width(*elem)) {
            Some((bits, rest)) => Ok(Ok((Arg::Num { elem: *elem, bits }, rest))),
            None => Ok(Err(Stop::Fails)),
        },
        ArgType::Text => read_text_arg(alloc, bytes),
        ArgType::SystemType => read_type_name(alloc, bytes),
        ArgType::Boxed => read_boxed(alloc, widths, bytes, depth),
        ArgType::Enum(name) => read_enum(widths, name, bytes),
        ArgType::Array(elem) => read_array(alloc, widths, elem.get(), bytes, depth),
    }
}

#[cycle(read)]
fn read_boxed<'a>(
    alloc: Global,
    widths: &[EnumWidth],
    bytes: &'a [u8],
    depth: u32,
) -> Found<'a, Arg>
    ensures { IfOk result (λ found. FoundAt found (boxed_arg (arg_at widths.now depth) bytes.now)) }
{
    let Some((ty, rest)) = read_type(alloc, bytes)? else {
        return Ok(Err(Stop::Fails));
    };
    match read_arg(alloc, widths, &ty, rest, depth)? {
        Ok((arg, after)) => Ok(Ok((Arg::Boxed(ty, Boxed::new(alloc, arg)?), after))),
        Err(stop) => Ok(Err(stop)),
    }
}

#[cycle(read)]
fn read_array<'a>(
    alloc: Global,
    widths: &[EnumWidth],
    elem: &ArgType,
    bytes: &'a [u8],
    depth: u32,
) -> Found<'a, Arg>
    ensures { IfOk result (λ found. FoundAt found (array_arg elem.now (arg_at widths.now depth elem.now) bytes.now)) }
{
    let Some((count, rest)) = read_little(bytes, 4) else {
        return Ok(Err(Stop::Fails));
    };
    if count == NULL_COUNT {
        return Ok(Ok((Arg::NullArray(elem.copy(alloc)?), rest)));
    }
    match read_items(alloc, widths, elem, count, rest, depth)? {
        Ok((items, after)) => Ok(Ok((Arg::Array(elem.copy(alloc)?, items), after))),
        Err(stop) => Ok(Err(stop)),
    }
}

/// So many elements. A count that is too large fails at the first element that is not there.
#[cycle(read)]
#[tactic(auto, using(crate::proofs::Depth::one_more, crate::proofs::Depth::no_more, crate::proofs::Depth::none_before))]
fn read_items<'a>(
    alloc: Global,
    widths: &[EnumWidth],
    elem: &ArgType,
    count: u64,
    bytes: &'a [u8],
    depth: u32,
) -> Found<'a, List<Arg>>
    ensures { IfOk result (λ found. FoundAt found (many_items_at (arg_at widths.now depth elem.now) count bytes.now)) }
{
    let mut items = List::new(alloc);
    let mut rest = bytes;
    for index in 0..count {
        match read_arg(alloc, widths, elem, rest, depth)? {
            Ok((item, after)) => {
                items.push(item)?;
                rest = after;
            }
            Err(stop) => return Ok(Err(stop)),
        }
    }
    Ok(Ok((items, rest)))
}
