use attr_blob::{Arg, ArgType, AttrValue, NamedArg};
use cil_base::{Bytes, NoMemory, escape};

fn add_quoted(text: &[u8], out: &mut Bytes) -> Result<(), NoMemory> {
    let escaped = escape(out.allocator(), text)?;
    out.push(b'"')?;
    out.extend(escaped.as_slice())?;
    out.push(b'"')
}

fn add_number(elem: u8, bits: u64, out: &mut Bytes) -> Result<(), NoMemory> {
    let text = format!(in out.allocator(); "{elem:02x}:{bits}")?;
    out.extend(text.as_bytes())
}

fn add_type(ty: &ArgType, out: &mut Bytes) -> Result<(), NoMemory> {
    match ty {
        ArgType::Prim(elem) => {
            let text = format!(in out.allocator(); "{elem:02x}")?;
            out.extend(text.as_bytes())
        }
        ArgType::Text => out.extend(b"text"),
        ArgType::SystemType => out.extend(b"type"),
        ArgType::Boxed => out.extend(b"boxed"),
        ArgType::Enum(name) => {
            out.extend(b"enum ")?;
            add_quoted(name.as_slice(), out)
        }
        ArgType::Array(elem) => {
            out.extend(b"[]")?;
            add_type(elem.get(), out)
        }
    }
}

#[cycle(print)]
fn add_arg(arg: &Arg, out: &mut Bytes) -> Result<(), NoMemory> {
    match arg {
        Arg::Num { elem, bits } => add_number(*elem, *bits, out),
        Arg::Text(text) => add_quoted(text.as_slice(), out),
        Arg::NullText => out.extend(b"null"),
        Arg::TypeName(name) => {
            out.extend(b"type ")?;
            add_quoted(name.as_slice(), out)
        }
        Arg::NullType => out.extend(b"null type"),
        Arg::Boxed(ty, value) => {
            out.extend(b"(")?;
            add_type(ty, out)?;
            out.extend(b") ")?;
            add_arg(value.get(), out)
        }
        Arg::Enum { name, elem, bits } => {
            add_quoted(name.as_slice(), out)?;
            out.push(b' ')?;
            add_number(*elem, *bits, out)
        }
        Arg::Array(elem, items) => {
            out.extend(b"[]")?;
            add_type(elem, out)?;
            out.push(b' ')?;
            add_args(items.as_slice(), out)
        }
        Arg::NullArray(elem) => {
            out.extend(b"null []")?;
            add_type(elem, out)
        }
    }
}

/// Adds arguments in brackets, with commas between them.
#[cycle(print)]
fn add_args(args: &[Arg], out: &mut Bytes) -> Result<(), NoMemory> {
    out.push(b'[')?;
    let mut first = true;
    for arg in args {
        if !first {
            out.push(b',')?;
        }
        first = false;
        add_arg(arg, out)?;
    }
    out.push(b']')
}

fn add_named(named: &NamedArg, out: &mut Bytes) -> Result<(), NoMemory> {
    if named.property {
        out.extend(b" property ")?;
    } else {
        out.extend(b" field ")?;
    }
    add_type(&named.ty, out)?;
    out.push(b' ')?;
    add_quoted(named.name.as_slice(), out)?;
    out.push(b'=')?;
    add_arg(&named.value, out)
}

/// Adds the arguments of a value.
pub fn add_value(value: &AttrValue, out: &mut Bytes) -> Result<(), NoMemory> {
    add_args(value.fixed.as_slice(), out)?;
    for named in value.named.as_slice() {
        add_named(named, out)?;
    }
    Ok(())
}
