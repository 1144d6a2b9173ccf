/// Where a key stands: a table, a row of it counted from 1, and which of the kinds of keys that the row has.
#[derive(Clone, Copy, Debug, PartialEq, Eq, Hash)]
pub struct Place {
    pub table: u8,
    pub rid: u32,
    pub kind: u8,
}

/// For each table the number of its rows, and the number of kinds of keys that each of its rows has.
#[derive(Clone, Copy, Debug, PartialEq, Eq)]
pub struct Shape {
    pub rows: [u32; 64],
    pub kinds: [u8; 64],
}

/// Keys of which some have a place. Equal keys have the same place or none, and keys that have the same place are
/// equal.
pub trait HasPlace: Eq {
    ghost use Rattle.std.specs.Prelude.{◌≡◌, Option, Some, true};
    ghost use Rattle.slot_store.specs.declared.place.Place.{Place};

    ghost place_of: { Self → Option Place };

    /// The key's place. `None` exactly where it has none.
    fn place(&self) -> Option<Place>
        ensures { result ≡ place_of self.now };

    ghost one_place: { (a b : Self) → Self.eq a b ≡ true → place_of a ≡ place_of b };

    ghost one_key: { (a b : Self) (p : Place) → place_of a ≡ Some p → place_of b ≡ Some p → Self.eq a b ≡ true };
}
