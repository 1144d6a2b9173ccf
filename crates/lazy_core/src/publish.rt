//! How keys are filled: memory is taken first, and then what was decoded is put in, which takes none.
ghost use Rattle.std.specs.Prelude.{◌≡◌, ◌<◌, ◌≤◌, ◌+◌, ◌++◌, ◌∷◌, [], IfOk, OnErr, OnOk, length, vec_capacity};
ghost use Rattle.node_model.specs.Immediate.{read};
ghost use Rattle.lazy_core.specs.Legal.{WasWanted};
ghost use Rattle.lazy_core.specs.Steps.{history_after, published};

use crate::lazy::Core;
use crate::wanted::{Published, Wanted};
use cil_base::NoMemory;
use node_model::{By, Entry, Key, Slot, Why};
use node_read::read_key;
use std::alloc::Global;

/// The entry of a key that is filled.
fn fill_entry(by: By, point: u64, why: Why, key: &Key) -> Entry
    ensures { result ≡ Entry.Fill by point why key.now }
{
    Entry::Fill {
        by,
        point,
        why,
        key: *key,
    }
}

/// Adds an entry for which there is room, so that it takes no memory.
fn push_in_room(history: &mut Vec<Entry>, entry: Entry)
    requires { length history.old.items < vec_capacity history.old }
    ensures items { history.new.items ≡ history.old.items ++ entry ∷ [] }
    ensures room { vec_capacity history.old ≤ vec_capacity history.new }
{
    match history.push(entry) {
        Ok(()) => {}
        Err(_) => {}
    }
}

/// Fills a key that was wanted with the slot that the image gives, for which it takes the memory. `NoMemory` adds no
/// entry.
pub(crate) fn fill(alloc: Global, core: &mut Core, wanted: Wanted) -> Result<Published, NoMemory>
    requires { WasWanted core.old.bytes core.old.history wanted.point wanted.why wanted.key }
    ensures answer { IfOk result (λ answer. answer ≡ published core.old.bytes core.old.history wanted) }
    ensures history { OnOk result (core.new.history ≡ history_after core.old.bytes core.old.history wanted) }
    ensures image { core.new.bytes ≡ core.old.bytes }
    ensures kept { OnErr result (core.new.history ≡ core.old.history) }
{
    let slot = read_key(alloc, core.image(), &wanted.key)?;
    core.make_room()?;
    Ok(core.publish(wanted, slot))
}

/// One more than a number of entries, all of which are fewer.
fn counted(count: u64, all: usize) -> u64
    requires { count < all }
    ensures { result ≡ count + 1 }
{
    count + 1
}

impl Core {
    /// Takes the memory that one fill needs, where there is none to spare. `NoMemory` changes nothing.
    pub fn make_room(&mut self) -> Result<(), NoMemory>
        ensures room { OnOk result (1 ≤ self.new.spare) }
        ensures history { self.new.history ≡ self.old.history }
        ensures image { self.new.bytes ≡ self.old.bytes }
        ensures err { OnErr result (self.new ≡ self.old) }
    {
        if self.spare == 0 {
            self.history.reserve(1)?;
            self.graph.slots.make_room()?;
            self.spare = 1;
        }
        Ok(())
    }

    /// Fills a key that was wanted with what the file says there, and adds the entry of it: `Stored`. `Already` comes
    /// exactly where the key is filled, and then nothing changes. Asks for a key of the image that was looked at, and
    /// not filled, at the history's first `point` entries; for the slot that `read_key` gives of it; and for memory
    /// taken ahead, of which it may use up that of one fill. Takes no memory.
    pub fn publish(&mut self, wanted: Wanted, slot: Slot) -> Published
        requires wanted { WasWanted self.old.bytes self.old.history wanted.point wanted.why wanted.key }
        requires slot { slot ≡ read self.old.bytes wanted.key }
        requires room { 1 ≤ self.old.spare }
        ensures answer { result ≡ published self.old.bytes self.old.history wanted }
        ensures history { self.new.history ≡ history_after self.old.bytes self.old.history wanted }
        ensures image { self.new.bytes ≡ self.old.bytes }
    {
        let Wanted {
            by,
            point,
            why,
            key,
        } = wanted;
        let entry = fill_entry(by, point, why, &key);
        if !self.graph.slots.put_ready(key, slot) {
            return Published::Already;
        }
        push_in_room(&mut self.history, entry);
        self.fills = counted(self.fills, self.history.len());
        self.spare -= 1;
        Published::Stored
    }
}
