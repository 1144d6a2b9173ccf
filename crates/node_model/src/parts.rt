//! What the slots that are filled say of a key: one call for each kind of key. A key that has no slot, or one of
//! another kind, is lacking.

ghost use Rattle.std.specs.Prelude.{◌≡◌, Err, MatchResult, Ok};
ghost use Rattle.node_model.specs.Parts.{part_at};
ghost use Rattle.node_model.specs.declared.key.Key.TheVariants as keys;

use crate::key::Key;
use crate::slot::Slot;
use crate::value::{BodyValue, ResourceValue, RowValue, Value};
use crate::walk::Halt;
use cil_base::{Bytes, List, Token};
use md_schema::Link;
use pe_image::Facts;
use sig_tree::Sig;
use slot_store::Slots;

/// The row of a token.
pub fn row_part(slots: &Slots<Key, Slot>, token: Token) -> Result<&RowValue, Halt>
    ensures { MatchResult result (λ row. part_at slots.now (keys.Row token) ≡ Ok row.now)
        (λ halt. part_at slots.now (keys.Row token) ≡ Err halt) }
{
    match slots.get(&Key::Row(token)) {
        Some(Slot::Value(Value::Row(row))) => Ok(row),
        Some(Slot::Fault(fault)) => Err(Halt::Faulty(*fault)),
        _ => Err(Halt::Lacks(Key::Row(token))),
    }
}

/// The signature of a row.
pub fn sig_part(slots: &Slots<Key, Slot>, token: Token) -> Result<&Sig, Halt>
    ensures { MatchResult result (λ sig. part_at slots.now (keys.Sig token) ≡ Ok sig.now)
        (λ halt. part_at slots.now (keys.Sig token) ≡ Err halt) }
{
    match slots.get(&Key::Sig(token)) {
        Some(Slot::Value(Value::Sig(sig))) => Ok(sig),
        Some(Slot::Fault(fault)) => Err(Halt::Faulty(*fault)),
        _ => Err(Halt::Lacks(Key::Sig(token))),
    }
}

/// The rows of a table that a row owns, or the root.
pub fn owned_part(slots: &Slots<Key, Slot>, owner: Token, table: u8) -> Result<&List<Token>, Halt>
    ensures { MatchResult result (λ tokens. part_at slots.now (keys.Owned owner table) ≡ Ok tokens.now)
        (λ halt. part_at slots.now (keys.Owned owner table) ≡ Err halt) }
{
    match slots.get(&Key::Owned(owner, table)) {
        Some(Slot::Value(Value::Tokens(tokens))) => Ok(tokens),
        Some(Slot::Fault(fault)) => Err(Halt::Faulty(*fault)),
        _ => Err(Halt::Lacks(Key::Owned(owner, table))),
    }
}

/// The rows that belong to a row by a link.
pub fn linked_part(slots: &Slots<Key, Slot>, token: Token, link: Link) -> Result<&List<Token>, Halt>
    ensures { MatchResult result (λ tokens. part_at slots.now (keys.Linked token link) ≡ Ok tokens.now)
        (λ halt. part_at slots.now (keys.Linked token link) ≡ Err halt) }
{
    match slots.get(&Key::Linked(token, link)) {
        Some(Slot::Value(Value::Tokens(tokens))) => Ok(tokens),
        Some(Slot::Fault(fault)) => Err(Halt::Faulty(*fault)),
        _ => Err(Halt::Lacks(Key::Linked(token, link))),
    }
}

/// The body of a method.
pub fn body_part(slots: &Slots<Key, Slot>, token: Token) -> Result<&BodyValue, Halt>
    ensures { MatchResult result (λ body. part_at slots.now (keys.Body token) ≡ Ok body.now)
        (λ halt. part_at slots.now (keys.Body token) ≡ Err halt) }
{
    match slots.get(&Key::Body(token)) {
        Some(Slot::Value(Value::Body(body))) => Ok(body),
        Some(Slot::Fault(fault)) => Err(Halt::Faulty(*fault)),
        _ => Err(Halt::Lacks(Key::Body(token))),
    }
}

/// The data of a FieldRVA row.
pub fn data_part(slots: &Slots<Key, Slot>, token: Token) -> Result<&Bytes, Halt>
    ensures { MatchResult result (λ bytes. part_at slots.now (keys.Data token) ≡ Ok bytes.now)
        (λ halt. part_at slots.now (keys.Data token) ≡ Err halt) }
{
    match slots.get(&Key::Data(token)) {
        Some(Slot::Value(Value::Data(bytes))) => Ok(bytes),
        Some(Slot::Fault(fault)) => Err(Halt::Faulty(*fault)),
        _ => Err(Halt::Lacks(Key::Data(token))),
    }
}

/// What a ManifestResource row names.
pub fn resource_part(slots: &Slots<Key, Slot>, token: Token) -> Result<&ResourceValue, Halt>
    ensures { MatchResult result (λ value. part_at slots.now (keys.Resource token) ≡ Ok value.now)
        (λ halt. part_at slots.now (keys.Resource token) ≡ Err halt) }
{
    match slots.get(&Key::Resource(token)) {
        Some(Slot::Value(Value::Resource(value))) => Ok(value),
        Some(Slot::Fault(fault)) => Err(Halt::Faulty(*fault)),
        _ => Err(Halt::Lacks(Key::Resource(token))),
    }
}

/// What the headers say of the image as a whole.
pub fn facts_part(slots: &Slots<Key, Slot>) -> Result<&Facts, Halt>
    ensures { MatchResult result (λ facts. part_at slots.now keys.Facts ≡ Ok facts.now)
        (λ halt. part_at slots.now keys.Facts ≡ Err halt) }
{
    match slots.get(&Key::Facts) {
        Some(Slot::Value(Value::Facts(facts))) => Ok(facts),
        Some(Slot::Fault(fault)) => Err(Halt::Faulty(*fault)),
        _ => Err(Halt::Lacks(Key::Facts)),
    }
}
