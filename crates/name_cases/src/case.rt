use asm_names::{assembly_text, guid_text, public_key_token};
use cil_base::{Bytes, List, NoMemory};
use std::alloc::Global;

/// The bytes of hex text; none where it is no hex.
fn bytes(alloc: Global, text: &str) -> Option<Vec<u8>> {
    hex::decode(alloc, text).ok()
}

/// Four numbers with points between them.
fn version(text: &str) -> Option<[u16; 4]> {
    let mut parts = text.split('.');
    let major = parts.next()?.parse::<u16>().ok()?;
    let minor = parts.next()?.parse::<u16>().ok()?;
    let build = parts.next()?.parse::<u16>().ok()?;
    let revision = parts.next()?.parse::<u16>().ok()?;
    Some([major, minor, build, revision])
}

fn token(alloc: Global, key: &str) -> Result<Option<Bytes>, NoMemory> {
    match bytes(alloc, key) {
        Some(key) => {
            let text = hex::encode(alloc, public_key_token(key.as_slice()))?;
            Ok(Some(List::from_slice(alloc, text.as_bytes())?))
        }
        None => Ok(None),
    }
}

fn guid(alloc: Global, stored: &str) -> Result<Option<Bytes>, NoMemory> {
    match <[u8; 16] as hex::FromHex>::from_hex(stored) {
        Ok(stored) => Ok(Some(guid_text(alloc, stored)?)),
        Err(_) => Ok(None),
    }
}

fn assembly(alloc: Global, fields: &str) -> Result<Option<Bytes>, NoMemory> {
    let mut fields = fields.split('|');
    let name = fields.next().unwrap_or("");
    let numbers = version(fields.next().unwrap_or(""));
    let culture = fields.next().unwrap_or("");
    let token = bytes(alloc, fields.next().unwrap_or(""));
    match (numbers, token) {
        (Some(numbers), Some(token)) => {
            let text = assembly_text(
                alloc,
                name.as_bytes(),
                numbers,
                culture.as_bytes(),
                token.as_slice(),
            )?;
            Ok(Some(text))
        }
        _ => Ok(None),
    }
}

/// The answer to a case.
pub fn answer(alloc: Global, line: &str) -> Result<Bytes, NoMemory> {
    let (call, fields) = line.split_once('|').unwrap_or((line, ""));
    let text = match call {
        "token" => token(alloc, fields)?,
        "assembly" => assembly(alloc, fields)?,
        "guid" => guid(alloc, fields)?,
        _ => None,
    };
    match text {
        Some(text) => Ok(text),
        None => List::from_slice(alloc, b"no case"),
    }
}
