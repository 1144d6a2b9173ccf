ghost use Rattle.std.specs.Prelude.{◌≡◌, [], IfOk, OnErr, OnOk};
ghost use Rattle.md_heaps.specs.Pools.{EntriesStay, StandsAt, heap_of_entries, joined_entries, with_entry};
ghost use Rattle.md_heaps.specs.inner.PoolMap.{kept_place, kept_with};

use cil_base::{Bytes, List, NoMemory};
use indexmap::IndexMap;
use indexmap::map::Entry;
use std::alloc::Global;
use std::marker::Model;

/// The entries of one heap, each once, in the order of their first use. Contracts see them as a list.
#[derive(Drop)]
pub(crate) struct Pool {
    places: IndexMap<Bytes, u64>,
    size: u64,
}

impl Model for Pool {
    ghost use Rattle.std.specs.Prelude.{List, ℕ};
    ghost use Rattle.std.specs.Map.{keys_of};
    ghost use Rattle.md_heaps.specs.inner.PoolMap.{IsPoolMap};

    ghost Value = { List (List ℕ) };

    ghost view = { λ p. keys_of p.places.entries };

    ghost invariant = { λ p. IsPoolMap p.places.entries p.size };
}

/// The place that the map has for an entry. Where it has none the entry goes last, with `place`, and the answer is `None`.
/// `NoMemory` changes nothing.
fn find_or_put(
    places: &mut IndexMap<Bytes, u64>,
    entry: Bytes,
    place: u64,
) -> Result<Option<u64>, NoMemory>
    ensures found { IfOk result (λ found. found ≡ kept_place places.old.entries entry) }
    ensures kept { OnOk result (places.new.entries ≡ kept_with places.old.entries entry place) }
    ensures err { OnErr result (places.new.entries ≡ places.old.entries) }
{
    match places.entry(entry)? {
        Entry::Occupied(found) => Ok(Some(*found.get())),
        Entry::Vacant(free) => {
            free.insert(place);
            Ok(None)
        }
    }
}

impl Pool {
    /// A pool without entries. Takes no memory yet.
    pub fn new(alloc: Global) -> Pool
        ensures { result ≡ [] }
    {
        Pool {
            places: IndexMap::new(alloc),
            size: 0,
        }
    }

    /// The allocator that the entries come from.
    pub fn allocator(&self) -> Global {
        *self.places.allocator()
    }

    /// The place of an entry, which goes last where it is new. `NoMemory` changes nothing.
    pub fn add(&mut self, entry: Bytes) -> Result<u64, NoMemory>
        ensures entries { OnOk result (self.new ≡ with_entry self.old entry) }
        ensures place { IfOk result (StandsAt self.new entry) }
        ensures stays { OnOk result (EntriesStay self.old self.new) }
        ensures err { OnErr result (self.new ≡ self.old) }
    {
        let place = self.size;
        let Some(size) = place.checked_add(entry.len() as u64) else {
            return Err(NoMemory);
        };
        match find_or_put(&mut self.places, entry, place)? {
            Some(known) => Ok(known),
            None => {
                self.size = size;
                Ok(place)
            }
        }
    }

    /// The entries one after the other.
    fn join(&self) -> Result<Bytes, NoMemory>
        ensures { IfOk result (λ bytes. bytes ≡ joined_entries self.now) }
    {
        let mut bytes = List::new(self.allocator());
        for entry in self.places.keys() {
            bytes.extend(entry.as_slice())?;
        }
        Ok(bytes)
    }

    /// The heap of the entries, padded with zeros to a multiple of 4.
    pub fn heap(&self) -> Result<Bytes, NoMemory>
        ensures { IfOk result (λ bytes. bytes ≡ heap_of_entries self.now) }
    {
        let mut bytes = self.join()?;
        let count = (4 - bytes.len() % 4) % 4;
        bytes.extend(&[0; 4][..count])?;
        Ok(bytes)
    }
}
