ghost use Rattle.std.specs.Prelude.{◌≡◌, [], OnOk, Some};
ghost use Rattle.std.specs.Option.{option_copied, option_map};
ghost use Rattle.indexmap.specs.IndexMap.{Updates};
ghost use Rattle.node_model.specs.declared.look.Look.TheVariants as looks;
ghost use Rattle.node_model.specs.declared.slot.Slot.TheVariants as slots;
ghost use Rattle.write_plan.specs.Refusals.{Refuses};
ghost use Rattle.write_plan.specs.Seen.{fault_seen};
ghost use Rattle.write_plan.specs.declared.refusal.WriteRefusal.TheVariants.{Reached};
ghost use Rattle.write_plan.specs.inner.Taken.{KeepsOne, value_kept};

use crate::refusal::WriteRefusal;
use cil_base::{List, NoMemory};
use indexmap::IndexMap;
use node_model::{Key, Look, Slot, Value};
use std::alloc::Global;
use std::hash::Hash;

/// The keys that a walk took, in order, and what they hold.
#[derive(Drop)]
pub(crate) struct Kept {
    pub keys: List<Key>,
    pub values: IndexMap<Key, Value>,
}

/// Gives a key this value.
fn put<K: Eq + Hash + Drop, V: Drop>(
    values: &mut IndexMap<K, V>,
    key: K,
    value: V,
) -> Result<(), NoMemory>
    ensures { OnOk result (Updates K.eq values.old values.new key (Some value)) }
{
    values.insert(key, value)?;
    Ok(())
}

impl Kept {
    /// No keys.
    pub(crate) fn new(alloc: Global) -> Kept
        ensures keys { result.keys ≡ [] }
        ensures values { result.values.entries ≡ [] }
    {
        Kept {
            keys: List::new(alloc),
            values: IndexMap::new(alloc),
        }
    }

    /// What a key holds, if it was taken.
    pub(crate) fn value(&self, key: &Key) -> Option<&Value>
        ensures { option_copied result ≡ value_kept self.now key.now }
    {
        self.values.get(key)
    }

    /// Takes a key with its value.
    fn keep_value(&mut self, key: &Key, value: Value) -> Result<(), NoMemory>
        ensures { OnOk result (KeepsOne key.now (looks.Slot (slots.Value value)) self.old self.new) }
    {
        put(&mut self.values, *key, value)?;
        self.keys.push(*key)
    }

    /// Takes a key with its slot.
    fn keep_slot(&mut self, key: &Key, slot: Slot) -> Result<(), WriteRefusal>
        ensures kept { OnOk result (KeepsOne key.now (looks.Slot slot) self.old self.new) }
        ensures refused { Refuses (option_map Reached (fault_seen (looks.Slot slot))) result }
    {
        match slot {
            Slot::Fault(fault) => Err(WriteRefusal::Reached(fault)),
            Slot::Value(value) => {
                self.keep_value(key, value)?;
                Ok(())
            }
        }
    }

    /// Takes a key with what is seen there. `Reached` comes exactly where that is a fault.
    pub(crate) fn keep(&mut self, key: &Key, seen: Look) -> Result<(), WriteRefusal>
        ensures kept { OnOk result (KeepsOne key.now seen self.old self.new) }
        ensures refused { Refuses (option_map Reached (fault_seen seen)) result }
    {
        match seen {
            Look::Slot(slot) => self.keep_slot(key, slot),
            Look::Removed(_) => {
                self.keys.push(*key)?;
                Ok(())
            }
            Look::Absent(_) => {
                self.keys.push(*key)?;
                Ok(())
            }
        }
    }
}
