ghost use Rattle.std.specs.Prelude.{◌≡◌, ◌++◌, IfOk, OnOk};
ghost use Rattle.asm_names.specs.Assembly.{assembly_text, culture_text, key_token_text, assembly_version_text};

use crate::hex::add_hex;
use cil_base::{Bytes, List, NoMemory};
use std::alloc::Global;

/// The full name of an assembly: `NAME, Version=A.B.C.D, Culture=X, PublicKeyToken=H`, with `neutral` for an empty
/// culture, `null` for an empty token, and else the token in lower-case hex. Name and culture stand as they are
/// (ECMA-335 II.6.2.1.3).
pub fn assembly_text(
    alloc: Global,
    name: &[u8],
    version: [u16; 4],
    culture: &[u8],
    token: &[u8],
) -> Result<Bytes, NoMemory>
    ensures { IfOk result (λ text. text ≡ assembly_text name.now version culture.now token.now) }
{
    let mut text = List::from_slice(alloc, name)?;
    text.extend(b", Version=")?;
    add_version(&mut text, version)?;
    text.extend(b", Culture=")?;
    add_culture(&mut text, culture)?;
    text.extend(b", PublicKeyToken=")?;
    add_token(&mut text, token)?;
    Ok(text)
}

/// Adds four numbers with points between them.
fn add_version(text: &mut Bytes, version: [u16; 4]) -> Result<(), NoMemory>
    ensures { OnOk result (text.new ≡ text.old ++ assembly_version_text version) }
{
    let [major, minor, build, revision] = version;
    let digits = format!(in text.allocator(); "{major}.{minor}.{build}.{revision}")?;
    text.extend(digits.as_bytes())
}

fn add_culture(text: &mut Bytes, culture: &[u8]) -> Result<(), NoMemory>
    ensures { OnOk result (text.new ≡ text.old ++ culture_text culture.now) }
{
    match culture {
        [] => text.extend(b"neutral"),
        _ => text.extend(culture),
    }
}

fn add_token(text: &mut Bytes, token: &[u8]) -> Result<(), NoMemory>
    ensures { OnOk result (text.new ≡ text.old ++ key_token_text token.now) }
{
    match token {
        [] => text.extend(b"null"),
        _ => add_hex(text, token),
    }
}
