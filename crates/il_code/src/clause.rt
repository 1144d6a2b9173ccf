//! Clauses of sections (ECMA-335 II.25.4.6): in a small section 12 bytes, in a fat one 24.
//!
//! | small: offset, size | fat: offset, size | field |
//! |---|---|---|
//! | 0, 2 | 0, 4 | flags: 0 typed, 1 filter, 2 finally, 4 fault |
//! | 2, 2 | 4, 4 | the protected range's offset in the code |
//! | 4, 1 | 8, 4 | its length |
//! | 5, 2 | 12, 4 | the handler's offset in the code |
//! | 7, 1 | 16, 4 | its length |
//! | 8, 4 | 20, 4 | the type's token, or the filter's offset in the code |

/// The fields of a clause.
#[derive(Clone, Copy)]
pub struct Clause {
    pub flags: u32,
    pub try_offset: u32,
    pub try_len: u32,
    pub offset: u32,
    pub len: u32,
    pub last: u32,
}
