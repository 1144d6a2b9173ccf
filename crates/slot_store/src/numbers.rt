ghost use Rattle.std.specs.Prelude.{◌≡◌, ◌<◌, IfOk, length, get_or, set, [], is_some};
ghost use Rattle.slot_store.specs.Shape.{is_in_shape};
ghost use Rattle.slot_store.specs.inner.Numbers.{blank_numbers, location, stored_number};

use crate::place::{Place, Shape};
use cil_base::{List, NoMemory};
use std::alloc::Global;

/// Where the number of a place stands: its table, and how far into the vector of that table. `None` exactly where the
/// place is not in the shape.
#[tactic(auto, unfolding(crate::specs::inner::Numbers::location, crate::specs::Shape::is_in_shape))]
pub(crate) fn locate(shape: &Shape, place: Option<Place>) -> Option<(usize, usize)>
    ensures location { result ≡ location shape.now place }
    ensures found { is_some result ≡ is_in_shape shape.now place }
{
    let place = place?;
    let table = place.table as usize;
    if table >= 64
        || place.rid == 0
        || place.rid > shape.rows[table]
        || place.kind >= shape.kinds[table]
    {
        return None;
    }
    let before = (place.rid - 1) as usize * shape.kinds[table] as usize;
    Some((table, before + place.kind as usize))
}

/// The number at a location, 0 where nothing stands there.
#[tactic(auto, unfolding(crate::specs::inner::Numbers::stored_number))]
pub(crate) fn stored_number(numbers: &Vec<List<u32>>, table: usize, at: usize) -> u32
    ensures { result ≡ stored_number numbers.now.items (table, at) }
{
    match numbers.get(table) {
        Some(row) => match row.as_slice().get(at) {
            Some(number) => *number,
            None => 0,
        },
        None => 0,
    }
}

/// Writes the number at a location.
pub(crate) fn set_number(numbers: &mut Vec<List<u32>>, table: usize, at: usize, number: u32)
    requires table { table < length numbers.old.items }
    requires at { at < length (get_or numbers.old.items table []) }
    ensures { numbers.new.items ≡ set numbers.old.items table (set (get_or numbers.old.items table []) at number) }
{
    let of_table = &mut numbers[table];
    of_table.set(at, number);
}

/// A 0 for each place of the shape, in a vector for each table.
#[tactic(auto, unfolding(crate::specs::inner::Numbers::blank_numbers), using(crate::proofs::NumberLemmas::blank_next))]
pub(crate) fn blank_numbers(alloc: Global, shape: &Shape) -> Result<Vec<List<u32>>, NoMemory>
    ensures { IfOk result (λ numbers. numbers.items ≡ blank_numbers shape.now 64) }
{
    let mut numbers = Vec::new(alloc);
    for table in 0..64 {
        let count = shape.rows[table] as usize * shape.kinds[table] as usize;
        let of_table = Vec::from_elem(alloc, 0, count)?;
        numbers.push(List::from_vec(of_table))?;
    }
    Ok(numbers)
}
