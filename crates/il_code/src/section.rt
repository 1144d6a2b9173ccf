//! The sections behind the code (ECMA-335 II.25.4.5). The header of one is a byte of kind and flags, and the section's
//! size in one byte, or in three where the section is fat.

ghost use Rattle.std.specs.Prelude.{◌≡◌};
ghost use Rattle.il_code.specs.Sections.{clause_size};

use crate::format::{FAT_CLAUSE, SMALL_CLAUSE};

/// What a section's header says.
#[derive(Clone, Copy)]
pub struct Section {
    /// Whether its clauses have 24 bytes each, and not 12.
    pub fat: bool,
    /// Whether another section follows.
    pub further: bool,
    /// The number of its clauses.
    pub count: u32,
}

/// The bytes of a clause of a fat section or of a small one (ECMA-335 II.25.4.6).
pub fn clause_len(fat: bool) -> usize
    ensures { result ≡ clause_size fat }
{
    if fat { FAT_CLAUSE } else { SMALL_CLAUSE }
}
