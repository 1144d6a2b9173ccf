//! Replies over an image to which nothing was done, without a core.
ghost use Rattle.std.specs.Prelude.{◌≡◌, IfOk, OnOk, true};
ghost use Rattle.node_model.specs.Graph.{untouched};
ghost use Rattle.node_model.specs.Keys.{image_rows, is_key, is_key_there, is_row};
ghost use Rattle.node_model.specs.Places.{slot_at};
ghost use Rattle.node_model.specs.Questions.{key_reply, query_key};
ghost use Rattle.node_model.specs.Replies.{reply};
ghost use Rattle.graph_query.specs.Answered.{query_answer};
ghost use Rattle.lazy_core.specs.inner.Replies.{AreRead, key_said};

use crate::lazy::row_counts;
use crate::slot_reply::slot_reply;
use cil_base::{List, NoMemory, Token};
use graph_query::{Peek, QueryGraph, answer};
use node_model::{Key, Query, Reply, Slot, has_kind, image_shape};
use node_read::{Image, read_key};
use slot_store::Slots;
use std::alloc::Global;

/// Whether a token names a row of the image.
fn has_row(image: &Image, token: Token) -> bool
    ensures { result ≡ is_row (image_rows image.now) token }
{
    token.rid > 0 && token.rid <= image.rows(token.table)
}

/// Whether the row of a key is there, or the key is one of the root's.
fn is_there(image: &Image, key: &Key) -> bool
    ensures { result ≡ is_key_there (image_rows image.now) key.now }
{
    key.is_of_root() || has_row(image, key.token())
}

/// What is said of a key before it is looked at: that its row is absent, or that its table has no such part.
#[tactic(auto, using(crate::proofs::DirectLemmas::early_absent, crate::proofs::DirectLemmas::early_wrong, crate::proofs::DirectLemmas::early_none))]
fn early_reply(image: &Image, key: &Key) -> Option<Reply>
    ensures { result ≡ key_reply (untouched image.now).nodes key.now }
{
    if !is_there(image, key) {
        return Some(Reply::Absent(key.token()));
    }
    if !has_kind(key) {
        return Some(Reply::WrongKind(key.token()));
    }
    None
}

/// The reply to a query that looks at this key alone.
fn one_reply(alloc: Global, image: &Image, key: Key) -> Result<Reply, NoMemory>
    ensures { IfOk result (λ said. said ≡ key_said image.now key) }
{
    if let Some(early) = early_reply(image, &key) {
        return Ok(early);
    }
    let slot = read_key(alloc, image, &key)?;
    Ok(slot_reply(key, slot))
}

/// What is answered to a query over these slots.
fn answer_over(
    alloc: Global,
    image: &Image,
    slots: &Slots<Key, Slot>,
    query: &Query,
) -> Result<Peek, NoMemory>
    ensures { IfOk result (λ answer. answer ≡ query_answer (untouched image.now).nodes (slot_at slots.now) 0 query.now) }
{
    let removed = List::new(alloc);
    let graph = QueryGraph {
        slots,
        rows: row_counts(image),
        added: [0; 64],
        removed: &removed,
        fills: 0,
    };
    answer(alloc, &graph, query)
}

/// Puts in what the file says of a key.
fn read_in(
    alloc: Global,
    image: &Image,
    slots: &mut Slots<Key, Slot>,
    key: Key,
) -> Result<(), NoMemory>
    requires key { is_key image.now key ≡ true }
    requires slots { AreRead image.now (slot_at slots.old) }
    ensures { OnOk result (AreRead image.now (slot_at slots.new)) }
{
    let slot = read_key(alloc, image, &key)?;
    slots.put_once(key, slot)?;
    Ok(())
}

/// The reply to a query that looks at any keys: they are read as they are needed, and kept until the reply is there.
fn several_reply(alloc: Global, image: &Image, query: &Query) -> Result<Reply, NoMemory>
    ensures { IfOk result (λ said. said ≡ reply (untouched image.now) 0 query.now) }
{
    // No row's key has a place in this shape, so memory is taken only for keys that are read.
    let mut slots = Slots::new(alloc, &image_shape(&[0; 64]))?;
    // Each round keeps a slot more, so memory ends long before the rounds do.
    for _ in 0..u64::MAX {
        match answer_over(alloc, image, &slots, query)? {
            Peek::Ready(reply) => return Ok(reply),
            Peek::Need(key) => read_in(alloc, image, &mut slots, key)?,
        }
    }
    Err(NoMemory)
}

/// The reply to a query over an image to which nothing was done. For a caller that asks for each key once: it needs no
/// core, and nothing is kept.
pub fn image_reply(alloc: Global, image: &Image, query: &Query) -> Result<Reply, NoMemory>
    ensures { IfOk result (λ said. said ≡ reply (untouched image.now) 0 query.now) }
{
    match query.key() {
        Some(key) => one_reply(alloc, image, key),
        None => several_reply(alloc, image, query),
    }
}
