//! What is said of the plan of a graph.

use crate::refusal::refusal_text;
use crate::words::{table, token, word};
use cil_base::{Bytes, List, NoMemory, Token};
use dump_text::reply_text;
use md_schema::Link;
use node_model::{Graph, Key, Reply, Value};
use std::alloc::Global;
use write_plan::Plan;

/// The number of tables that have names.
const TABLES: u8 = 0x2d;

/// Adds a space and how many rows of a table are kept, where there are some.
fn add_count(alloc: Global, text: &mut Bytes, plan: &Plan, table: u8) -> Result<(), NoMemory> {
    let count = plan.kept(table).len();
    if count == 0 {
        return Ok(());
    }
    let said = format!(in alloc; " {table:02x}:{count}")?;
    text.extend(said.as_bytes())
}

/// How many rows of each table are kept.
fn counts(alloc: Global, plan: &Plan) -> Result<Bytes, NoMemory> {
    let mut text = List::from_slice(alloc, b"counts")?;
    for table in 0..TABLES {
        add_count(alloc, &mut text, plan, table)?;
    }
    Ok(text)
}

/// The rows of a table in the order in which they are written.
fn kept(alloc: Global, plan: &Plan, table: u8) -> Result<Bytes, NoMemory> {
    let mut text = List::from_slice(alloc, b"kept")?;
    for token in plan.kept(table).as_slice() {
        text.push(b' ')?;
        text.extend(&token.hex_digits())?;
    }
    Ok(text)
}

/// Adds a space and the new number of a token.
fn add_number(text: &mut Bytes, plan: &Plan, token: Token) -> Result<(), NoMemory> {
    text.push(b' ')?;
    match plan.renumber(token) {
        Some(new) => text.extend(&new.hex_digits()),
        None => text.extend(b"none"),
    }
}

/// The new numbers of the tokens of a line.
fn numbers(alloc: Global, plan: &Plan, line: &str) -> Result<Bytes, NoMemory> {
    let mut text = List::from_slice(alloc, b"numbers")?;
    for word in line.split(' ').skip(1) {
        add_number(&mut text, plan, token(word))?;
    }
    Ok(text)
}

/// The key of a line.
fn key(line: &str) -> Key {
    let of = token(word(line, 2));
    match word(line, 1) {
        "row" => Key::Row(of),
        "sig" => Key::Sig(of),
        "body" => Key::Body(of),
        "data" => Key::Data(of),
        "resource" => Key::Resource(of),
        "owned" => Key::Owned(of, table(word(line, 3))),
        "nested" => Key::Linked(of, Link::Nested),
        "attributes" => Key::Linked(of, Link::CustomAttribute),
        _ => Key::Facts,
    }
}

/// The value that a key holds, as a reply.
fn value_reply(key: Key, value: Value) -> Reply {
    match value {
        Value::Row(row) => Reply::Row(row),
        Value::Sig(sig) => Reply::Sig(key.token(), sig),
        Value::Tokens(tokens) => Reply::Tokens(key, tokens),
        Value::Body(body) => Reply::Body(key.token(), body),
        Value::Data(bytes) => Reply::Data(key.token(), bytes),
        Value::Resource(value) => Reply::Resource(key.token(), value),
        Value::Facts(facts) => Reply::Facts(facts),
    }
}

/// What a key of the walk holds, with its tokens by new numbers.
fn value(alloc: Global, plan: &Plan, key: Key) -> Result<Bytes, NoMemory> {
    match plan.value(&key) {
        Some(value) => {
            let new = plan.renamed(alloc, value)?;
            reply_text(alloc, &value_reply(key, new))
        }
        None => List::from_slice(alloc, b"none"),
    }
}

/// What is said of a plan.
fn of_plan(alloc: Global, plan: &Plan, line: &str) -> Result<Bytes, NoMemory> {
    match word(line, 0) {
        "counts" => counts(alloc, plan),
        "kept" => kept(alloc, plan, table(word(line, 1))),
        "numbers" => numbers(alloc, plan, line),
        "value" => value(alloc, plan, key(line)),
        _ => List::from_slice(alloc, b"planned"),
    }
}

/// What is said of the plan of a graph, or why it is not written.
pub fn planned<G: Graph>(alloc: Global, graph: &G, line: &str) -> Result<Bytes, NoMemory> {
    match Plan::make(alloc, graph) {
        Ok(plan) => of_plan(alloc, &plan, line),
        Err(refusal) => refusal_text(alloc, refusal),
    }
}
