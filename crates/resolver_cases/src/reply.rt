use crate::cell::cells;
use crate::words::{bytes, number, table, text, token, tokens, word};
use cil_base::{NoMemory, Token};
use md_schema::Link;
use node_model::{Fault, FaultKind, Key, Reply, RowValue};
use sig_read::parse_sig;
use std::alloc::Global;

/// The table whose signatures are types alone.
const TYPE_SPEC: u8 = 0x1b;

/// The reply of a signature; that there is none where the bytes spell none.
fn sig_reply(alloc: Global, token: Token, hex: &str) -> Result<Reply, NoMemory> {
    let blob = bytes(alloc, hex)?;
    match parse_sig(alloc, token.table == TYPE_SPEC, blob.as_slice())? {
        Some(sig) => Ok(Reply::Sig(token, sig)),
        None => Ok(Reply::NotFound),
    }
}

/// The reply of a list.
fn list_reply(alloc: Global, part: &str, key: Key, first: usize) -> Result<Reply, NoMemory> {
    Ok(Reply::Tokens(key, tokens(alloc, part, first)?))
}

fn fault(token: Token) -> Reply {
    Reply::Fault(Fault {
        key: Key::Row(token),
        kind: FaultKind::BadRow,
        column: 0,
    })
}

/// A reply that is told by a token alone.
fn short_reply(part: &str) -> Reply {
    let token = token(word(part, 1));
    match word(part, 0) {
        "found" => Reply::Found(token),
        "fault" => fault(token),
        "absent" => Reply::Absent(token),
        "removed" => Reply::Removed(token),
        "wrongkind" => Reply::WrongKind(token),
        "filled" => Reply::Filled(number(word(part, 1))),
        _ => Reply::NotFound,
    }
}

/// The reply of a part of a line.
pub fn reply(alloc: Global, part: &str) -> Result<Reply, NoMemory> {
    let about = token(word(part, 1));
    match word(part, 0) {
        "row" => {
            let cells = cells(alloc, part, 2)?;
            Ok(Reply::Row(RowValue {
                token: about,
                cells,
            }))
        }
        "sig" => sig_reply(alloc, about, word(part, 2)),
        "name" => Ok(Reply::Name(about, text(alloc, word(part, 2))?)),
        "owned" => list_reply(alloc, part, Key::Owned(about, table(word(part, 2))), 3),
        "nested" => list_reply(alloc, part, Key::Linked(about, Link::Nested), 2),
        "inside" => list_reply(alloc, part, Key::Linked(about, Link::NestedClass), 2),
        _ => Ok(short_reply(part)),
    }
}
