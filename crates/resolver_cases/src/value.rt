use attr_blob::{Arg, AttrValue, NamedArg};
use cil_base::{Bytes, NoMemory, escape};

fn add_quoted(text: &[u8], out: &mut Bytes) -> Result<(), NoMemory> {
    let escaped = escape(out.allocator(), text)?;
    out.push(b'"')?;
    out.extend(escaped.as_slice())?;
    out.push(b'"')
}

fn add_number(elem: u8, bits: u64, out: &mut Bytes) -> Result<(), NoMemory> {
    let text = format!(in out.allocator(); "{elem:02x}:{bits}")?;
    out.extend(text.as_bytes())
}

#[cycle(print)]
fn add_arg(arg: &Arg, out: &mut Bytes) -> Result<(), NoMemory> {
    match arg {
        Arg::Num { elem, bits } => add_number(*elem, *bits, out),
        Arg::Text(text) => add_quoted(text.as_slice(), out),
        Arg::TypeName(name) => {
            out.extend(b"type ")?;
            add_quoted(name.as_slice(), out)
        }
        Arg::Boxed(_, value) => {
            out.extend(b"box ")?;
            add_arg(value.get(), out)
        }
        Arg::Enum { name, elem, bits } => {
            out.extend(b"enum ")?;
            add_quoted(name.as_slice(), out)?;
            out.push(b' ')?;
            add_number(*elem, *bits, out)
        }
        Arg::Array(_, items) => {
            out.push(b'[')?;
            add_args(items.as_slice(), out)?;
            out.push(b']')
        }
        _ => out.extend(b"null"),
    }
}

/// Adds arguments with commas between them.
#[cycle(print)]
fn add_args(args: &[Arg], out: &mut Bytes) -> Result<(), NoMemory> {
    let mut first = true;
    for arg in args {
        if !first {
            out.push(b',')?;
        }
        first = false;
        add_arg(arg, out)?;
    }
    Ok(())
}

fn add_named(named: &NamedArg, out: &mut Bytes) -> Result<(), NoMemory> {
    if named.property {
        out.extend(b" property ")?;
    } else {
        out.extend(b" field ")?;
    }
    out.extend(named.name.as_slice())?;
    out.push(b'=')?;
    add_arg(&named.value, out)
}

/// Adds the arguments of a value: those of the constructor in brackets, then those that are named.
pub fn add_value(value: &AttrValue, out: &mut Bytes) -> Result<(), NoMemory> {
    out.push(b'(')?;
    add_args(value.fixed.as_slice(), out)?;
    out.push(b')')?;
    for named in value.named.as_slice() {
        add_named(named, out)?;
    }
    Ok(())
}
