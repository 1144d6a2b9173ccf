//! Laws: a function without a body states what holds of the definitions.

ghost use Rattle.laid_parts.specs.Laws.{PartsGrow, PartsStand, PlacesAreLengths, PlacesAreMultiples};

/// What stands at a part's place is that part.
pub fn parts_stand()
    ensures { PartsStand }
{}

/// A part's place is the first multiple of its boundary behind the parts before it.
pub fn places_are_multiples()
    ensures { PlacesAreMultiples }
{}

/// The place behind parts is a sum of lengths.
pub fn places_are_lengths()
    ensures { PlacesAreLengths }
{}

/// What `Parts::push` does to the bytes is what a part more in the list does to them.
pub fn parts_grow()
    ensures { PartsGrow }
{}
