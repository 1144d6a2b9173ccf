//! What is seen of the key that a query looks at, and which keys the words of an edit name.

use crate::edit::edits;
use crate::query::queries;
use cil_base::{Bytes, List, NoMemory};
use dump_text::reply_text;
use graph_edits::needs;
use lazy_core::Core;
use node_model::{Edit, Graph, Key, Look, Reply, Slot, Value, has_kind};
use std::alloc::Global;

/// What is seen of a key of a graph; none where its row's table has no such key.
fn looked<G: Graph>(alloc: Global, graph: &G, key: &Key) -> Result<Option<Look>, NoMemory> {
    if !has_kind(key) {
        return Ok(None);
    }
    Ok(Some(graph.look(alloc, key)?))
}

/// The value that a key holds, as a reply.
fn value_reply(key: Key, value: Value) -> Reply {
    match value {
        Value::Row(row) => Reply::Row(row),
        Value::Sig(sig) => Reply::Sig(key.token(), sig),
        Value::Tokens(tokens) => Reply::Tokens(key, tokens),
        Value::Body(body) => Reply::Body(key.token(), body),
        Value::Data(bytes) => Reply::Data(key.token(), bytes),
        Value::Resource(value) => Reply::Resource(key.token(), value),
        Value::Facts(facts) => Reply::Facts(facts),
    }
}

/// What a key holds, as a reply.
fn slot_reply(key: Key, slot: Slot) -> Reply {
    match slot {
        Slot::Value(value) => value_reply(key, value),
        Slot::Fault(fault) => Reply::Fault(fault),
    }
}

/// What is seen of a key, as a reply.
fn look_reply(key: Key, look: Look) -> Reply {
    match look {
        Look::Slot(slot) => slot_reply(key, slot),
        Look::Removed(token) => Reply::Removed(token),
        Look::Absent(token) => Reply::Absent(token),
    }
}

/// What is printed of a copy of what is seen of a key.
fn look_text(alloc: Global, key: Key, look: &Look) -> Result<Bytes, NoMemory> {
    let reply = look_reply(key, look.copy(alloc)?);
    reply_text(alloc, &reply)
}

/// What is printed of a key of a core.
fn key_text(alloc: Global, core: &Core, key: Key) -> Result<Bytes, NoMemory> {
    match looked(alloc, core, &key)? {
        Some(look) => look_text(alloc, key, &look),
        None => List::from_slice(alloc, b"no such key"),
    }
}

/// What is seen of the key that a line's query looks at.
pub fn look(alloc: Global, core: &Core, line: &str) -> Result<Bytes, NoMemory> {
    let queries = queries(alloc, line)?;
    let Some(query) = queries.as_slice().first() else {
        return List::from_slice(alloc, b"no query");
    };
    match query.key() {
        Some(key) => key_text(alloc, core, key),
        None => List::from_slice(alloc, b"no key"),
    }
}

/// What is printed of a key alone: that of a list without rows.
fn name_text(alloc: Global, key: &Key) -> Result<Bytes, NoMemory> {
    reply_text(alloc, &Reply::Tokens(*key, List::new(alloc)))
}

/// How many keys an edit's words name, and each behind a `;`.
fn needs_text(alloc: Global, edit: &Edit) -> Result<Bytes, NoMemory> {
    let keys = needs(alloc, edit)?;
    let count = keys.as_slice().len();
    let head = format!(in alloc; "needs {count}")?;
    let mut text = List::from_slice(alloc, head.as_bytes())?;
    for key in keys.as_slice() {
        text.extend(b"; ")?;
        text.extend(name_text(alloc, key)?.as_slice())?;
    }
    Ok(text)
}

/// Which keys the words of a line's edit name.
pub fn needed(alloc: Global, line: &str) -> Result<Bytes, NoMemory> {
    let edits = edits(alloc, line)?;
    match edits.as_slice().first() {
        Some(edit) => needs_text(alloc, edit),
        None => List::from_slice(alloc, b"no edit"),
    }
}
