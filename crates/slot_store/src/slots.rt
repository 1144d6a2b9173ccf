ghost use Rattle.std.specs.Prelude.{◌≡◌, ◌≤◌, ◌+◌, IfOk, OnOk, OnErr, None, Some, option_copied, is_none, is_some};
ghost use Rattle.std.specs.Prelude.{true, false, if◌then◌else◌};
ghost use Rattle.slot_store.specs.Shape.{is_in_shape};
ghost use Rattle.slot_store.specs.SlotMap.{ChangesSlot, PutsSlot, SlotsStay, kept_slot};

use crate::numbers::{blank_numbers, locate, set_number, stored_number};
use crate::place::{HasPlace, Shape};
use crate::values::{counted_value, exchange_other, exchange_value, push_in_room};
use cil_base::{List, NoMemory};
use indexmap::IndexMap;
use std::alloc::Global;
use std::hash::Hash;
use std::marker::Model;

/// Slots by their keys. A key whose place is in the shape has a number in the vector of its table: that of its slot
/// among the values, counted from 1, or 0 where it has no slot. All other keys are in the map. Contracts see a finite
/// map, the shape, and how many slots of keys in the shape can be put in without taking memory.
#[derive(Drop)]
pub struct Slots<K: Eq + Hash, V> {
    shape: Shape,
    numbers: Vec<List<u32>>,
    values: Vec<V>,
    spare: usize,
    others: IndexMap<K, V>,
}

impl<K: Eq + Hash, V> Model for Slots<K, V> {
    ghost use Rattle.slot_store.specs.SlotMap.{SlotMap};

    ghost Value = { SlotMap K V };

    ghost use Rattle.slot_store.specs.inner.Numbers.{HasRoom, IsNumbering};
    ghost use Rattle.std.specs.Prelude.{length, vec_capacity};

    ghost view = { λ s. record { shape = s.shape; spare = s.spare; numbers = s.numbers.items; values = s.values.items; others = s.others.entries } };

    ghost invariant = { λ s. IsNumbering s.shape s.numbers.items (length s.values.items) × HasRoom (length s.values.items) s.spare (vec_capacity s.values) };
}

impl<K: HasPlace + Hash + Drop, V: Drop> Slots<K, V> {
    /// A store of this shape in which no key has a slot. It takes 4 bytes for each place of the shape.
    pub fn new(alloc: Global, shape: &Shape) -> Result<Slots<K, V>, NoMemory>
        ensures empty { IfOk result (λ slots. (key : K) → kept_slot K.place_of K.eq slots key ≡ None) }
        ensures shape { IfOk result (λ slots. slots.shape ≡ shape.now) }
    {
        let numbers = blank_numbers(alloc, shape)?;
        Ok(Slots {
            shape: *shape,
            numbers,
            values: Vec::new(alloc),
            spare: 0,
            others: IndexMap::new(alloc),
        })
    }

    /// The slot of a key. `None` exactly where it has none. Takes no memory.
    #[tactic(auto, unfolding(crate::specs::SlotMap::kept_slot, crate::specs::inner::Numbers::value_in))]
    pub fn get(&self, key: &K) -> Option<&V>
        ensures { option_copied result ≡ kept_slot K.place_of K.eq self.now key.now }
    {
        match locate(&self.shape, key.place()) {
            Some((table, at)) => counted_value(
                &self.values,
                stored_number(&self.numbers, table, at),
            ),
            None => self.others.get(key),
        }
    }

    /// Whether the key has a place in the shape.
    fn is_placed(&self, key: &K) -> bool
        ensures { result ≡ is_in_shape self.now.shape (K.place_of key.now) }
    {
        locate(&self.shape, key.place()).is_some()
    }

    /// Takes the memory that one slot of a key in the shape needs, where there is none to spare. `NoMemory` changes
    /// nothing; it comes also where 2^32 - 1 such slots are filled.
    #[tactic(auto, unfolding(crate::specs::SlotMap::kept_slot))]
    pub fn make_room(&mut self) -> Result<(), NoMemory>
        ensures room { OnOk result (1 ≤ self.new.spare) }
        ensures spare { self.old.spare ≤ self.new.spare }
        ensures slots { SlotsStay K.place_of K.eq self.old self.new }
        ensures shape { self.new.shape ≡ self.old.shape }
        ensures err { OnErr result (self.new ≡ self.old) }
    {
        if self.spare == 0 {
            if self.values.len() >= 0xffff_ffff {
                return Err(NoMemory);
            }
            self.values.reserve(1)?;
            self.spare = 1;
        }
        Ok(())
    }

    /// Puts in the slot of a key that has a place in the shape, and answers true, exactly where the key had none. Takes
    /// no memory: it asks for room to spare, of which it uses up one where it answers true.
    pub fn put_ready(&mut self, key: K, value: V) -> bool
        requires place { is_in_shape self.old.shape (K.place_of key) ≡ true }
        requires room { 1 ≤ self.old.spare }
        ensures free { result ≡ is_none (kept_slot K.place_of K.eq self.old key) }
        ensures slots { PutsSlot K.place_of K.eq self.old self.new key value result }
        ensures spare { self.new.spare + (if result then 1 else 0) ≡ self.old.spare }
        ensures shape { self.new.shape ≡ self.old.shape }
    {
        let Some((table, at)) = locate(&self.shape, key.place()) else {
            return false;
        };
        if stored_number(&self.numbers, table, at) != 0 {
            return false;
        }
        push_in_room(&mut self.values, value);
        set_number(&mut self.numbers, table, at, self.values.len() as u32);
        self.spare -= 1;
        true
    }

    /// Puts in the slot of a key, and answers true, exactly where the key had none. `NoMemory` changes nothing.
    pub fn put_once(&mut self, key: K, value: V) -> Result<bool, NoMemory>
        ensures free { IfOk result (λ free. free ≡ is_none (kept_slot K.place_of K.eq self.old key)) }
        ensures slots { IfOk result (λ free. PutsSlot K.place_of K.eq self.old self.new key value free) }
        ensures shape { self.new.shape ≡ self.old.shape }
        ensures err { OnErr result (self.new ≡ self.old) }
    {
        if self.get(&key).is_some() {
            return Ok(false);
        }
        if self.is_placed(&key) {
            self.make_room()?;
            return Ok(self.put_ready(key, value));
        }
        self.others.insert(key, value)?;
        Ok(true)
    }

    /// Gives a key this slot, whether it had one or not, and answers the one that it had. `NoMemory` comes only where
    /// the key had none, and changes nothing.
    pub fn replace(&mut self, key: K, value: V) -> Result<Option<V>, NoMemory>
        ensures old { IfOk result (λ old. old ≡ kept_slot K.place_of K.eq self.old key) }
        ensures slots { OnOk result (ChangesSlot K.place_of K.eq self.old self.new key (Some value)) }
        ensures shape { self.new.shape ≡ self.old.shape }
        ensures absent { OnErr result (kept_slot K.place_of K.eq self.old key ≡ None) }
        ensures err { OnErr result (self.new ≡ self.old) }
    {
        if self.get(&key).is_none() {
            self.put_once(key, value)?;
            return Ok(None);
        }
        Ok(self.replace_filled(key, value))
    }

    /// Gives a key that has a slot this one, and answers the one that it had. Takes no memory.
    fn replace_filled(&mut self, key: K, value: V) -> Option<V>
        requires { is_some (kept_slot K.place_of K.eq self.old key) ≡ true }
        ensures old { result ≡ kept_slot K.place_of K.eq self.old key }
        ensures slots { ChangesSlot K.place_of K.eq self.old self.new key (Some value) }
        ensures shape { self.new.shape ≡ self.old.shape }
    {
        let Some((table, at)) = locate(&self.shape, key.place()) else {
            return exchange_other(&mut self.others, key, value);
        };
        let number = stored_number(&self.numbers, table, at);
        if number == 0 {
            return None;
        }
        Some(exchange_value(&mut self.values, (number - 1) as usize, value))
    }

    /// Takes out the slot of a key that has no place in the shape, and answers it. `None` exactly where the key had
    /// none.
    pub fn take(&mut self, key: &K) -> Option<V>
        requires { is_in_shape self.old.shape (K.place_of key.now) ≡ false }
        ensures value { result ≡ kept_slot K.place_of K.eq self.old key.now }
        ensures slots { ChangesSlot K.place_of K.eq self.old self.new key.now None }
        ensures spare { self.new.spare ≡ self.old.spare }
        ensures shape { self.new.shape ≡ self.old.shape }
    {
        self.others.swap_remove(key)
    }
}
