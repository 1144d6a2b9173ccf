//! Slots are changed: keys of a new row get their first, and keys that have one get another.

ghost use Rattle.std.specs.Prelude.{◌≡◌, IfOk, OnErr, OnOk, Some, is_some, true};
ghost use Rattle.md_schema.specs.Tables.{manifest_resource};
ghost use Rattle.node_model.specs.Fresh.{begins_with, fresh_resource, is_key_of, resource_begins, sig_begins};
ghost use Rattle.node_model.specs.Places.{slot_at};
ghost use Rattle.graph_edits.specs.inner.Making.{Begins, BeginsOne, Rewrites, SlotsKept, WritesSlot};
ghost use Rattle.graph_edits.specs.inner.Making.{all_filled, all_of_row, all_outside};

use crate::row_cells::cell_in;
use cil_base::{List, NoMemory};
use node_model::{BodyValue, Cell, Key, OptSig, ResourceValue, RowValue, Slot, Value};
use slot_store::Slots;
use std::alloc::Global;

/// The number of the column Implementation of ManifestResource (ECMA-335 II.22.24).
const IMPLEMENTATION: u8 = 3;

/// What a new resource is, by its Implementation: the place 0 of what that names, or no bytes of this image.
fn resource_by(alloc: Global, implementation: &Cell) -> ResourceValue
    ensures { result ≡ resource_begins (Some implementation.now) }
{
    match implementation {
        Cell::Ref(_) => ResourceValue::Elsewhere(0),
        _ => ResourceValue::Here(List::new(alloc)),
    }
}

/// What a new ManifestResource row names.
fn fresh_resource(alloc: Global, row: &RowValue) -> ResourceValue
    requires { row.now.token.table ≡ manifest_resource }
    ensures { result ≡ fresh_resource row.now }
{
    match cell_in(row.token.table, IMPLEMENTATION, row.cells.as_slice()) {
        Some(implementation) => resource_by(alloc, implementation),
        None => ResourceValue::Here(List::new(alloc)),
    }
}

/// What a key of a new row begins with.
fn first_slot(
    alloc: Global,
    row: &RowValue,
    sig: &OptSig,
    key: &Key,
) -> Result<Option<Slot>, NoMemory>
    requires { is_key_of row.now.token key.now ≡ true }
    ensures { IfOk result (λ slot. slot ≡ begins_with row.now sig.now key.now) }
{
    match key {
        Key::Row(_) => Ok(Some(Slot::Value(Value::Row(row.copy(alloc)?)))),
        Key::Sig(_) => first_sig(alloc, sig),
        Key::Owned(_, _) => Ok(Some(Slot::Value(Value::Tokens(List::new(alloc))))),
        Key::Linked(_, _) => Ok(Some(Slot::Value(Value::Tokens(List::new(alloc))))),
        Key::Body(_) => Ok(Some(Slot::Value(Value::Body(BodyValue::NoBody)))),
        Key::Data(_) => Ok(Some(Slot::Value(Value::Data(List::new(alloc))))),
        Key::Resource(_) => Ok(Some(Slot::Value(Value::Resource(fresh_resource(alloc, row))))),
        Key::Facts => Ok(None),
    }
}

/// What the signature of a new row begins with.
fn first_sig(alloc: Global, sig: &OptSig) -> Result<Option<Slot>, NoMemory>
    ensures { IfOk result (λ slot. slot ≡ sig_begins sig.now) }
{
    match sig {
        OptSig::None => Ok(None),
        OptSig::Is(sig) => Ok(Some(Slot::Value(Value::Sig(sig.copy(alloc)?)))),
    }
}

/// Gives the first of these keys what it begins with, and answers whether it had no slot and has one now. `NoMemory`
/// changes nothing.
fn begin_one(
    alloc: Global,
    slots: &mut Slots<Key, Slot>,
    row: &RowValue,
    sig: &OptSig,
    key: &Key,
) -> Result<bool, NoMemory>
    requires { is_key_of row.now.token key.now ≡ true }
    ensures new { IfOk result (λ new. BeginsOne slots.old slots.new row.now sig.now key.now new) }
    ensures shape { slots.new.shape ≡ slots.old.shape }
    ensures err { OnErr result (SlotsKept slots.old slots.new) }
{
    let Some(slot) = first_slot(alloc, row, sig, key)? else {
        return Ok(false);
    };
    let is_new = slots.put_once(*key, slot)?;
    Ok(is_new)
}

/// Drops what a key had.
fn let_go(_slot: Option<Slot>) {}

/// Gives keys of a new row what they begin with. `NoMemory` changes nothing.
pub(crate) fn begin(
    alloc: Global,
    slots: &mut Slots<Key, Slot>,
    row: &RowValue,
    sig: &OptSig,
    keys: &[Key],
) -> Result<(), NoMemory>
    requires outside { all_outside slots.old.shape keys.now ≡ true }
    requires of_row { all_of_row row.now keys.now ≡ true }
    ensures ok { OnOk result (Begins slots.old slots.new row.now sig.now keys.now) }
    ensures shape { slots.new.shape ≡ slots.old.shape }
    ensures err { OnErr result (SlotsKept slots.old slots.new) }
{
    let [key, keys @ ..] = keys else {
        return Ok(());
    };
    let is_new = begin_one(alloc, slots, row, sig, key)?;
    match begin(alloc, slots, row, sig, keys) {
        Ok(()) => Ok(()),
        Err(NoMemory) => {
            if !is_new {
                return Err(NoMemory);
            }
            let_go(slots.take(key));
            Err(NoMemory)
        }
    }
}

/// Gives a key that has a slot another one. It takes no memory.
fn write(slots: &mut Slots<Key, Slot>, key: Key, slot: Slot)
    requires { is_some (slot_at slots.old key) ≡ true }
    ensures slots { WritesSlot slots.old slots.new key slot }
    ensures shape { slots.new.shape ≡ slots.old.shape }
{
    let Ok(old) = slots.replace(key, slot) else {
        return;
    };
    let_go(old);
}

/// Gives keys that have slots their new content; of a key that stands twice, the first. It takes no memory.
pub(crate) fn write_all(slots: &mut Slots<Key, Slot>, contents: List<(Key, Slot)>)
    requires { all_filled (slot_at slots.old) contents ≡ true }
    ensures slots { Rewrites slots.old slots.new contents }
    ensures shape { slots.new.shape ≡ slots.old.shape }
{
    let mut contents = contents;
    let Some((key, slot)) = contents.pop() else {
        return;
    };
    write(slots, key, slot);
    write_all(slots, contents);
}
