ghost use Rattle.std.specs.Prelude.{◌≡◌, ◌<◌, ◌≤◌, ◌++◌, ◌∷◌, [], length, slice_get, slice_set, Some, is_some, true};
ghost use Rattle.std.specs.Option.{option_copied};
ghost use Rattle.std.specs.Vec.{vec_capacity};
ghost use Rattle.indexmap.specs.IndexMap.{get, Updates};
ghost use Rattle.slot_store.specs.inner.Numbers.{counted_value};

use indexmap::IndexMap;
use std::hash::Hash;

/// The value of a number, counted from 1. `None` where there is none, as for 0.
#[tactic(auto, unfolding(crate::specs::inner::Numbers::counted_value))]
pub(crate) fn counted_value<V>(values: &Vec<V>, number: u32) -> Option<&V>
    ensures { option_copied result ≡ counted_value values.now.items number }
{
    if number == 0 {
        return None;
    }
    values.get((number - 1) as usize)
}

/// Adds a value for which there is room, so that it takes no memory.
pub(crate) fn push_in_room<V: Drop>(values: &mut Vec<V>, value: V)
    requires { length values.old.items < vec_capacity values.old }
    ensures items { values.new.items ≡ values.old.items ++ value ∷ [] }
    ensures room { vec_capacity values.old ≤ vec_capacity values.new }
{
    match values.push(value) {
        Ok(()) => {}
        Err(_) => {}
    }
}

/// Puts a value in the place of the one at `at`, which is answered.
pub(crate) fn exchange_value<V>(values: &mut Vec<V>, at: usize, value: V) -> V
    requires { at < length values.old.items }
    ensures old { slice_get values.old.items at ≡ Some result }
    ensures new { values.new.items ≡ slice_set values.old.items at value }
    ensures room { vec_capacity values.new ≡ vec_capacity values.old }
{
    std::mem::replace(&mut values[at], value)
}

/// Gives a key that the map has this value, and answers the one that it had. A key that is there takes no memory.
pub(crate) fn exchange_other<K: Eq + Hash + Drop, V: Drop>(
    others: &mut IndexMap<K, V>,
    key: K,
    value: V,
) -> Option<V>
    requires { is_some (get K.eq others.old key) ≡ true }
    ensures old { result ≡ get K.eq others.old key }
    ensures updates { Updates K.eq others.old others.new key (Some value) }
{
    match others.insert(key, value) {
        Ok(old) => old,
        Err(_) => None,
    }
}
