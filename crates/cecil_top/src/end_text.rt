//! The text of an end: where a reference led, or what an attribute says.
ghost use Rattle.std.specs.Prelude.{◌≡◌, ◌<◌, ◌≤◌, ◌∷◌, ◌++◌, OnOk, codes, map};
ghost use Rattle.std.specs.List.{flat_map, join_with_byte};
ghost use Rattle.attr_blob.specs.Types.{number_width};
ghost use Rattle.cil_base.specs.Escape.{escaped, hex_pair, lower_hex};
ghost use Rattle.dump_text.specs.Pieces.{hex_number, quoted};
ghost use Rattle.cecil_top.specs.EndTexts.{argument_text, attribute_text, end_text, named_text, number_name, number_text};

use attr_blob::{Arg, AttrValue, NamedArg};
use cecil_inspect::add_decimal;
use cil_base::{Bytes, NoMemory, Token, escape};
use dump_text::add_reply;
use node_model::Reply;
use resolver::Next;
use sig_tree::element_type as el;

/// Adds the escaped form of a text.
fn add_escaped(text: &mut Bytes, bytes: &[u8]) -> Result<(), NoMemory>
    ensures { OnOk result (text.new ≡ text.old ++ escaped bytes.now) }
{
    let told = escape(text.allocator(), bytes)?;
    text.extend(told.as_slice())
}

/// Adds a text, escaped and in quotes.
fn add_quoted(text: &mut Bytes, bytes: &[u8]) -> Result<(), NoMemory>
    ensures { OnOk result (text.new ≡ text.old ++ quoted bytes.now) }
{
    text.push(b'"')?;
    add_escaped(text, bytes)?;
    text.push(b'"')
}

/// The name of an element type of numbers; `?` where it is none.
#[tactic(auto, unfolding(crate::specs::EndTexts::number_name))]
fn number_name(elem: u8) -> &'static [u8]
    ensures { result.now ≡ number_name elem }
{
    match elem {
        el::BOOLEAN => b"bool",
        el::CHAR => b"char",
        el::I1 => b"i1",
        el::U1 => b"u1",
        el::I2 => b"i2",
        el::U2 => b"u2",
        el::I4 => b"i4",
        el::U4 => b"u4",
        el::I8 => b"i8",
        el::U8 => b"u8",
        el::R4 => b"r4",
        el::R8 => b"r8",
        _ => b"?",
    }
}

/// How many bytes a number of that element type has.
fn number_width(elem: u8) -> usize
    ensures { result ≡ number_width elem }
{
    match elem {
        el::BOOLEAN | el::I1 | el::U1 => 1,
        el::CHAR | el::I2 | el::U2 => 2,
        el::I4 | el::U4 | el::R4 => 4,
        _ => 8,
    }
}

/// The lower-case hex digit of a number below 16.
fn hex_digit(value: u8) -> u8
    requires { value < 16 }
    ensures { result ≡ lower_hex value }
{
    if value < 10 {
        b'0' + value
    } else {
        b'a' - 10 + value
    }
}

/// Adds two hex digits for each byte, the higher first.
fn add_hex(text: &mut Bytes, bytes: &[u8]) -> Result<(), NoMemory>
    ensures { OnOk result (text.new ≡ text.old ++ flat_map hex_pair bytes.now) }
{
    for byte in bytes {
        text.extend(&[hex_digit(*byte / 16), hex_digit(*byte % 16)])?;
    }
    Ok(())
}

/// Adds the lowest bytes of a number in hex, the highest of them first.
fn add_bits(text: &mut Bytes, width: usize, bits: u64) -> Result<(), NoMemory>
    requires { width ≤ 8 }
    ensures { OnOk result (text.new ≡ text.old ++ hex_number width bits) }
{
    let bytes = bits.to_be_bytes();
    add_hex(text, &bytes[8 - width..])
}

/// Adds a number: its element type and its bits.
fn add_number(text: &mut Bytes, elem: u8, bits: u64) -> Result<(), NoMemory>
    ensures { OnOk result (text.new ≡ text.old ++ number_text elem bits) }
{
    text.extend(number_name(elem))?;
    text.push(b':')?;
    add_bits(text, number_width(elem), bits)
}

/// Adds a word and a text in quotes.
fn add_word(text: &mut Bytes, word: &[u8], bytes: &[u8]) -> Result<(), NoMemory>
    ensures { OnOk result (text.new ≡ text.old ++ (word.now ++ quoted bytes.now)) }
{
    text.extend(word)?;
    add_quoted(text, bytes)
}

/// Adds a value of an enum: its name and its number.
fn add_enum(text: &mut Bytes, name: &[u8], elem: u8, bits: u64) -> Result<(), NoMemory>
    ensures { OnOk result (text.new ≡ text.old ++ codes "enum " ++ quoted name.now ++ 0x20 ∷ number_text elem bits) }
{
    add_word(text, b"enum ", name)?;
    text.push(b' ')?;
    add_number(text, elem, bits)
}

/// Adds an argument.
#[cycle(arguments)]
fn add_argument(text: &mut Bytes, arg: &Arg) -> Result<(), NoMemory>
    ensures { OnOk result (text.new ≡ text.old ++ argument_text arg.now) }
{
    match arg {
        Arg::Num { elem, bits } => add_number(text, *elem, *bits),
        Arg::Text(bytes) => add_quoted(text, bytes.as_slice()),
        Arg::NullText => text.extend(b"null"),
        Arg::TypeName(name) => add_word(text, b"type ", name.as_slice()),
        Arg::NullType => text.extend(b"null"),
        Arg::Boxed(_, value) => {
            text.extend(b"box ")?;
            add_argument(text, value.get())
        }
        Arg::Enum { name, elem, bits } => add_enum(text, name.as_slice(), *elem, *bits),
        Arg::Array(_, items) => {
            text.push(b'[')?;
            add_arguments(text, items.as_slice())?;
            text.extend(b"]")
        }
        Arg::NullArray(_) => text.extend(b"null"),
    }
}

/// Adds arguments with a comma between each two.
#[cycle(arguments)]
#[tactic(auto, using(crate::proofs::EndTextLemmas::joined))]
fn add_arguments(text: &mut Bytes, args: &[Arg]) -> Result<(), NoMemory>
    ensures { OnOk result (text.new ≡ text.old ++ join_with_byte 0x2c (map argument_text args.now)) }
{
    let mut first = true;
    for arg in args {
        if !first {
            text.push(b',')?;
        }
        first = false;
        add_argument(text, arg)?;
    }
    Ok(())
}

/// Adds an argument with the name of the field or the property that it sets.
fn add_named(text: &mut Bytes, named: &NamedArg) -> Result<(), NoMemory>
    ensures { OnOk result (text.new ≡ text.old ++ named_text named.now) }
{
    text.extend(if named.property {
        b" property "
    } else {
        b" field "
    })?;
    add_escaped(text, named.name.as_slice())?;
    text.push(b'=')?;
    add_argument(text, &named.value)
}

/// Adds all arguments that are named.
fn add_all_named(text: &mut Bytes, all: &[NamedArg]) -> Result<(), NoMemory>
    ensures { OnOk result (text.new ≡ text.old ++ flat_map named_text all.now) }
{
    for named in all {
        add_named(text, named)?;
    }
    Ok(())
}

/// Adds the value of an attribute.
fn add_attribute(text: &mut Bytes, value: &AttrValue) -> Result<(), NoMemory>
    ensures { OnOk result (text.new ≡ text.old ++ attribute_text value.now) }
{
    text.push(b'(')?;
    add_arguments(text, value.fixed.as_slice())?;
    text.push(b')')?;
    add_all_named(text, value.named.as_slice())
}

/// Adds the row to which a reference leads.
#[tactic(auto, unfolding(crate::specs::EndTexts::end_text))]
fn add_found(text: &mut Bytes, home: u32, token: Token) -> Result<(), NoMemory>
    ensures { OnOk result (text.new ≡ text.old ++ end_text (Next.Found home token)) }
{
    text.extend(b"found m")?;
    add_decimal(text, u64::from(home))?;
    text.push(b' ')?;
    text.extend(&token.hex_digits())
}

/// Adds the name that nothing has.
fn add_unresolved(text: &mut Bytes, name: &[u8]) -> Result<(), NoMemory>
    ensures { OnOk result (text.new ≡ text.old ++ end_text (Next.Unresolved name.now)) }
{
    add_word(text, b"unresolved ", name)
}

/// Adds the reply at which a resolution stopped.
#[tactic(auto, unfolding(crate::specs::EndTexts::end_text))]
fn add_stopped(text: &mut Bytes, reply: &Reply) -> Result<(), NoMemory>
    ensures { OnOk result (text.new ≡ text.old ++ end_text (Next.Stopped reply.now)) }
{
    text.extend(b"stopped ")?;
    add_reply(text, reply)
}

/// Adds the text of an end, without a line feed. A question is none and adds nothing. After `NoMemory` a front of the
/// text may have been added.
#[tactic(auto, unfolding(crate::specs::EndTexts::end_text))]
pub(crate) fn add_end(text: &mut Bytes, end: &Next) -> Result<(), NoMemory>
    ensures { OnOk result (text.new ≡ text.old ++ end_text end.now) }
{
    match end {
        Next::Question { .. } => Ok(()),
        Next::Found { module, token } => add_found(text, *module, *token),
        Next::Attribute(value) => add_attribute(text, value),
        Next::BadAttribute => text.extend(b"bad"),
        Next::Unresolved(name) => add_unresolved(text, name.as_slice()),
        Next::TooDeep => text.extend(b"toodeep"),
        Next::Stopped(reply) => add_stopped(text, reply),
    }
}
