//! The texts of refusals of a write.

use cil_base::{Bytes, List, NoMemory, Token};
use dump_text::reply_text;
use node_model::{Key, Reply};
use std::alloc::Global;
use write_plan::WriteRefusal;

/// A word and a token.
fn of_token(alloc: Global, word: &str, token: Token) -> Result<Bytes, NoMemory> {
    let mut text = List::from_slice(alloc, word.as_bytes())?;
    text.extend(&token.hex_digits())?;
    Ok(text)
}

/// A word and a reply.
fn of_reply(alloc: Global, word: &str, reply: &Reply) -> Result<Bytes, NoMemory> {
    let mut text = List::from_slice(alloc, word.as_bytes())?;
    text.extend(reply_text(alloc, reply)?.as_slice())?;
    Ok(text)
}

/// A key, as that of a list without rows.
fn key_text(alloc: Global, key: Key) -> Result<Bytes, NoMemory> {
    of_reply(alloc, " in ", &Reply::Tokens(key, List::new(alloc)))
}

/// The token that is not kept, and behind it the key.
fn dangling(alloc: Global, key: Key, token: Token) -> Result<Bytes, NoMemory> {
    let mut text = of_token(alloc, "dangling ", token)?;
    text.extend(key_text(alloc, key)?.as_slice())?;
    Ok(text)
}

/// The table and its rows.
fn too_many(alloc: Global, table: u8, rows: u64) -> Result<Bytes, NoMemory> {
    let text = format!(in alloc; "too many {table:02x} {rows}")?;
    List::from_slice(alloc, text.as_bytes())
}

/// The text of a refusal.
pub fn refusal_text(alloc: Global, refusal: WriteRefusal) -> Result<Bytes, NoMemory> {
    match refusal {
        WriteRefusal::Reached(fault) => of_reply(alloc, "reached ", &Reply::Fault(fault)),
        WriteRefusal::NotPureIl => List::from_slice(alloc, b"not pure IL"),
        WriteRefusal::Twice(token) => of_token(alloc, "twice ", token),
        WriteRefusal::Dangling(key, token) => dangling(alloc, key, token),
        WriteRefusal::TooMany(table, rows) => too_many(alloc, table, rows),
        WriteRefusal::Unfit(token) => of_token(alloc, "unfit ", token),
        _ => Err(NoMemory),
    }
}
