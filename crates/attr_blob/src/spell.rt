ghost use Rattle.std.specs.Prelude.{◌≡◌, ◌++◌, ◌≤◌, ◌∷◌, List, IfOk, OnOk, map};
ghost use Rattle.byteorder.specs.Endian.{little_bytes};
ghost use Rattle.attr_blob.specs.declared.value.ArgType.{ArgType};
ghost use Rattle.attr_blob.specs.declared.value.ArgType.TheViews.{out-ArgType};
ghost use Rattle.attr_blob.specs.declared.value.AttrRead.TheVariants.{Value};
ghost use Rattle.attr_blob.specs.declared.value.EnumWidth.{EnumWidth};
ghost use Rattle.attr_blob.specs.Fronts.{spelled_text};
ghost use Rattle.attr_blob.specs.Types.{spelled_simple, spelled_type};
ghost use Rattle.attr_blob.specs.Attrs.{HasAttrType};
ghost use Rattle.attr_blob.specs.Decoded.{attr_at};
ghost use Rattle.attr_blob.specs.Spelled.{spelled_arg, spelled_all_named, spelled_args, spelled_attr, spelled_named};

use crate::types::{BOXED, ENUM, STRING, SYSTEM_TYPE, SZARRAY, number_width};
use crate::value::{Arg, ArgType, AttrValue, NamedArg};
use cil_base::{Bytes, List, NoMemory, write_compressed};
use std::alloc::Global;

/// The bytes of a value, each number in its shortest form. They are read back as the same value, given its parameter
/// types and widths, where it keeps the bounds: types that can be spelled, arguments of their types whose bits fit, at
/// most 64 deep, fewer than 2^16 named arguments, texts and names shorter than 2^29 bytes, arrays of at most 2^32 - 2
/// elements (ECMA-335 II.23.3).
pub fn encode_attr(alloc: Global, value: &AttrValue) -> Result<Bytes, NoMemory>
    ensures spelled { IfOk result (λ bytes. bytes ≡ spelled_attr value.now) }
    ensures read_back { IfOk result (λ bytes. (params : List ArgType) (widths : List EnumWidth)
        → HasAttrType params widths value.now → attr_at params widths bytes ≡ Value value.now) }
{
    let mut out = List::new(alloc);
    out.extend(&[1, 0])?;
    add_args(value.fixed.as_slice(), &mut out)?;
    add_little(2, value.named.len() as u64, &mut out)?;
    add_all_named(value.named.as_slice(), &mut out)?;
    Ok(out)
}

/// Adds the lowest bytes of a number, the lowest first.
fn add_little(width: usize, number: u64, out: &mut Bytes) -> Result<(), NoMemory>
    requires { width ≤ 8 }
    ensures { OnOk result (out.new ≡ out.old ++ little_bytes width number) }
{
    let bytes = number.to_le_bytes();
    out.extend(&bytes[..width])
}

/// Adds a text with its length; nothing where it is too long to be spelled.
fn add_text(text: &[u8], out: &mut Bytes) -> Result<(), NoMemory>
    ensures { OnOk result (out.new ≡ out.old ++ spelled_text text.now) }
{
    if text.len() >= 0x2000_0000 {
        return Ok(());
    }
    let len = write_compressed(text.len() as u32);
    out.extend(len.as_slice())?;
    out.extend(text)
}

/// Adds a type that is no array.
fn add_simple(ty: &ArgType, out: &mut Bytes) -> Result<(), NoMemory>
    ensures { OnOk result (out.new ≡ out.old ++ spelled_simple (out-ArgType ty.now)) }
{
    match ty {
        ArgType::Prim(elem) => out.push(*elem),
        ArgType::Text => out.push(STRING),
        ArgType::SystemType => out.push(SYSTEM_TYPE),
        ArgType::Boxed => out.push(BOXED),
        ArgType::Enum(name) => {
            out.push(ENUM)?;
            add_text(name.as_slice(), out)
        }
        ArgType::Array(_) => Ok(()),
    }
}

#[tactic(auto, unfolding(crate::specs::Types::spelled_type))]
fn add_type(ty: &ArgType, out: &mut Bytes) -> Result<(), NoMemory>
    ensures { OnOk result (out.new ≡ out.old ++ spelled_type ty.now) }
{
    match ty {
        ArgType::Array(elem) => {
            out.push(SZARRAY)?;
            add_simple(elem.get(), out)
        }
        ArgType::Prim(elem) => out.push(*elem),
        ArgType::Text => out.push(STRING),
        ArgType::SystemType => out.push(SYSTEM_TYPE),
        ArgType::Boxed => out.push(BOXED),
        ArgType::Enum(name) => {
            out.push(ENUM)?;
            add_text(name.as_slice(), out)
        }
    }
}

#[cycle(spell)]
fn add_arg(arg: &Arg, out: &mut Bytes) -> Result<(), NoMemory>
    ensures { OnOk result (out.new ≡ out.old ++ spelled_arg arg.now) }
{
    match arg {
        Arg::Num { elem, bits } => add_little(number_width(*elem), *bits, out),
        Arg::Text(text) => add_text(text.as_slice(), out),
        Arg::NullText => out.push(0xff),
        Arg::TypeName(name) => add_text(name.as_slice(), out),
        Arg::NullType => out.push(0xff),
        Arg::Boxed(ty, value) => {
            add_type(ty, out)?;
            add_arg(value.get(), out)
        }
        Arg::Enum { elem, bits, .. } => add_little(number_width(*elem), *bits, out),
        Arg::Array(_, items) => {
            add_little(4, items.len() as u64, out)?;
            add_args(items.as_slice(), out)
        }
        Arg::NullArray(_) => add_little(4, 0xffff_ffff, out),
    }
}

#[cycle(spell)]
fn add_args(args: &[Arg], out: &mut Bytes) -> Result<(), NoMemory>
    ensures { OnOk result (out.new ≡ out.old ++ spelled_args args.now) }
{
    for arg in args {
        add_arg(arg, out)?;
    }
    Ok(())
}

fn add_named(named: &NamedArg, out: &mut Bytes) -> Result<(), NoMemory>
    ensures { OnOk result (out.new ≡ out.old ++ spelled_named named.now) }
{
    out.push(if named.property { 0x54 } else { 0x53 })?;
    add_type(&named.ty, out)?;
    add_text(named.name.as_slice(), out)?;
    add_arg(&named.value, out)
}

fn add_all_named(all: &[NamedArg], out: &mut Bytes) -> Result<(), NoMemory>
    ensures { OnOk result (out.new ≡ out.old ++ spelled_all_named all.now) }
{
    for named in all {
        add_named(named, out)?;
    }
    Ok(())
}
