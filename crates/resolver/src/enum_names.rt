//! The name of an enum as an attribute spells it, taken apart (ECMA-335 II.23.3).

ghost use Rattle.std.specs.Prelude.{◌≡◌, ◌-◌, ◌≤◌, ◌∷◌, ◌++◌, ℕ, List, not, length, IfOk};
ghost use Rattle.std.specs.List.{filter, position, slice_split, suffix_len};
ghost use Rattle.resolver.specs.EnumNames.{before_comma, dotted_type_name, enum_assembly, enum_type_name, is_dot};
ghost use Rattle.resolver.specs.EnumNames.{is_comma, is_no_space, is_plus_sign, name_parts, nested_names};
ghost use Rattle.resolver.specs.EnumNames.{nested_waiting, outermost};
ghost use Rattle.resolver.specs.inner.Splits.{glued};

use crate::named_types::TypeName;
use crate::waiting::Waiting;
use cil_base::{Bytes, List, NoMemory};
use std::alloc::Global;

/// The place of the first comma.
fn first_comma(text: &[u8]) -> Option<usize>
    ensures { result ≡ position is_comma text.now }
{
    text.iter().position(|byte| *byte == b',')
}

/// What stands before the first comma; all where there is none.
fn before_comma(text: &[u8]) -> &[u8]
    ensures { result.now ≡ before_comma text.now }
{
    match first_comma(text) {
        Some(place) => &text[..place],
        None => text,
    }
}

/// The last of the parts so far with one byte more; a `+` ends it, and the next one is empty.
fn with_byte(parts: &mut List<Bytes>, part: Bytes, byte: u8) -> Result<Bytes, NoMemory>
    ensures { IfOk result (λ last. (rest : List ℕ) → parts.new ++ glued last (slice_split is_plus_sign rest)
        ≡ parts.old ++ glued part (slice_split is_plus_sign (byte ∷ rest))) }
{
    let alloc = part.allocator();
    if byte == b'+' {
        parts.push(part)?;
        return Ok(List::new(alloc));
    }
    let mut part = part;
    part.push(byte)?;
    Ok(part)
}

/// The parts between `+`.
fn split_at_plus(alloc: Global, text: &[u8]) -> Result<List<Bytes>, NoMemory>
    ensures { IfOk result (λ parts. parts ≡ slice_split is_plus_sign text.now) }
{
    let mut parts = List::new(alloc);
    let mut part = List::new(alloc);
    for byte in text {
        part = with_byte(&mut parts, part, *byte)?;
    }
    parts.push(part)?;
    Ok(parts)
}

/// The names in one another, the outermost first.
fn name_parts(alloc: Global, text: &[u8]) -> Result<List<Bytes>, NoMemory>
    ensures { IfOk result (λ parts. parts ≡ name_parts text.now) }
{
    split_at_plus(alloc, before_comma(text))
}

/// Where the name begins behind the last point; 0 where there is none.
fn name_start(text: &[u8]) -> usize
    ensures start { result ≡ length text.now - suffix_len (λ c. not (is_dot c)) text.now }
    ensures within { result ≤ length text.now }
{
    let mut start = text.len();
    while start > 0 && text[start - 1] != b'.' {
        start -= 1;
    }
    start
}

/// The namespace before the last point, and the name after it.
fn dotted_type_name(alloc: Global, text: &[u8]) -> Result<TypeName, NoMemory>
    ensures { IfOk result (λ name. name ≡ dotted_type_name text.now) }
{
    let start = name_start(text);
    let namespace = List::from_slice(alloc, &text[..start.saturating_sub(1)])?;
    let name = List::from_slice(alloc, &text[start..])?;
    Ok(TypeName { namespace, name })
}

/// The first of the parts.
fn outermost(parts: &[Bytes]) -> &[u8]
    ensures { result.now ≡ outermost parts.now }
{
    match parts {
        [part, ..] => part.as_slice(),
        [] => &[],
    }
}

/// The type in which all others of the name are.
#[tactic(auto, unfolding(crate::specs::EnumNames::enum_type_name))]
pub(crate) fn enum_type_name(alloc: Global, text: &[u8]) -> Result<TypeName, NoMemory>
    ensures { IfOk result (λ name. name ≡ enum_type_name text.now) }
{
    let parts = name_parts(alloc, text)?;
    dotted_type_name(alloc, outermost(parts.as_slice()))
}

/// The names behind the first, as what waits for the types that they are nested in.
fn waiting_of(alloc: Global, names: &[Bytes]) -> Result<List<Waiting>, NoMemory>
    ensures { IfOk result (λ waiting. waiting ≡ nested_waiting names.now) }
{
    let mut waiting = List::new(alloc);
    for name in names {
        waiting.push(Waiting::Nested(name.copy()?))?;
    }
    Ok(waiting)
}

/// What waits for the outermost type of the name.
#[tactic(auto, unfolding(crate::specs::EnumNames::nested_names))]
pub(crate) fn nested_waiting(alloc: Global, text: &[u8]) -> Result<List<Waiting>, NoMemory>
    ensures { IfOk result (λ waiting. waiting ≡ nested_waiting (nested_names text.now)) }
{
    let parts = name_parts(alloc, text)?;
    match parts.as_slice() {
        [_, names @ ..] => waiting_of(alloc, names),
        [] => Ok(List::new(alloc)),
    }
}

/// The text without its spaces.
fn without_spaces(alloc: Global, text: &[u8]) -> Result<Bytes, NoMemory>
    ensures { IfOk result (λ kept. kept ≡ filter is_no_space text.now) }
{
    let mut kept = List::new(alloc);
    for byte in text {
        if *byte != b' ' {
            kept.push(*byte)?;
        }
    }
    Ok(kept)
}

/// The name of the assembly. None where the text has no comma.
#[tactic(auto, unfolding(crate::specs::EnumNames::enum_assembly))]
pub(crate) fn enum_assembly(alloc: Global, text: &[u8]) -> Result<Option<Bytes>, NoMemory>
    ensures { IfOk result (λ name. name ≡ enum_assembly text.now) }
{
    match first_comma(text) {
        Some(place) => {
            let rest = before_comma(&text[place + 1..]);
            Ok(Some(without_spaces(alloc, rest)?))
        }
        None => Ok(None),
    }
}
