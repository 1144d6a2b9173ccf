ghost use Rattle.std.specs.Prelude.{◌≡◌, replicate, slice_set, true};
ghost use Rattle.slot_store.specs.Shape.{is_in_shape};

use crate::{HasPlace, Place, Shape, Slots};
use cil_base::NoMemory;
use std::hash::Hash;
use std::test::Fail;

/// A place is a key that stands there.
impl HasPlace for Place {
    ghost use Rattle.std.specs.Prelude.{Some};
    ghost use Rattle.std.proofs.Common.{ap};
    ghost use Rattle.slot_store.specs.inner.PlaceLaws.{equal_is_same, same_is_equal};

    ghost place_of = { λ p. Some p };

    fn place(&self) -> Option<Place> {
        Some(*self)
    }

    ghost one_place = { λ a b equal. ap Some (equal_is_same a b equal) };

    ghost one_key = { same_is_equal };
}

/// A shape whose one table has three rows of two kinds.
fn six_places() -> Shape
    ensures { result ≡ record { rows = slice_set (replicate 64 0) 2 3; kinds = slice_set (replicate 64 0) 2 2 } }
{
    let mut rows = [0; 64];
    let mut kinds = [0; 64];
    rows[2] = 3;
    kinds[2] = 2;
    Shape { rows, kinds }
}

/// The place of a number below 15: six are in the shape, the others have row 0 or 4, or kind 2.
fn place(number: u8) -> Place {
    Place {
        table: 2,
        rid: u32::from(number / 3),
        kind: number % 3,
    }
}

/// Puts in a slot for which the memory was taken first.
fn put_with_room<K: HasPlace + Hash + Drop>(
    slots: &mut Slots<K, u32>,
    key: K,
    value: u32,
) -> Result<bool, NoMemory>
    requires { is_in_shape slots.old.shape (K.place_of key) ≡ true }
    ensures { slots.new.shape ≡ slots.old.shape }
{
    slots.make_room()?;
    Ok(slots.put_ready(key, value))
}

#[test]
fn a_key_has_the_slot_that_was_put_in_last(rt: HostRuntime) -> Result<(), Fail> {
    let mut slots = Slots::new(rt.alloc(), &six_places())?;
    for number in 0..15 {
        let key = place(number);
        let value = u32::from(number);
        assert_eq!(rt; slots.get(&key), None, "{number} before");
        let first = slots.put_once(key, value)?;
        let second = slots.put_once(key, 99)?;
        assert_eq!(rt; (first, second), (true, false), "{number}");
    }
    for number in 0..15 {
        let value = u32::from(number);
        let old = slots.replace(place(number), value + 20)?;
        assert_eq!(rt; old, Some(value), "{number} replaced");
    }
    for number in 0..15 {
        let value = u32::from(number) + 20;
        assert_eq!(rt; slots.get(&place(number)), Some(&value), "{number} after");
    }
    Ok(())
}

#[test]
#[tactic(auto, unfolding(crate::specs::Shape::is_in_shape))]
fn slots_are_put_into_room_and_taken_out(rt: HostRuntime) -> Result<(), Fail> {
    let inside = Place {
        table: 2,
        rid: 3,
        kind: 1,
    };
    let outside = Place {
        table: 2,
        rid: 4,
        kind: 1,
    };
    let mut slots = Slots::new(rt.alloc(), &six_places())?;
    let first = put_with_room(&mut slots, inside, 5)?;
    let second = put_with_room(&mut slots, inside, 6)?;
    let put = slots.put_once(outside, 7)?;
    let taken = slots.take(&outside);
    assert_eq!(rt; (first, second, put, taken), (true, false, true, Some(7)));
    assert_eq!(rt; slots.get(&outside), None);
    assert_eq!(rt; slots.get(&inside), Some(&5));
    Ok(())
}
