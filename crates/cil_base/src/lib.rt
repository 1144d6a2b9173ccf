//! What every other crate of the library speaks of: metadata tokens, lists and bytes, want of memory, numbers at places,
//! compressed numbers, user strings, and the escaped form in which names are printed.
#![tactic(auto)]

mod boxed;
mod compressed;
mod entries;
mod escaped;
mod laws;
mod list;
mod no_memory;
mod number_laws;
mod place;
mod signed;
mod token;

pub use boxed::Boxed;
pub use compressed::{Compressed, read_compressed, write_compressed};
pub use entries::{entry_at_front, from_index, units_at};
pub use escaped::escape;
pub use laws::{length_decides_the_entry, tokens_are_numbers};
pub use list::{Bytes, List};
pub use no_memory::NoMemory;
pub use number_laws::{numbers_have_one_reading, signed_numbers_have_one_reading};
pub use place::{number_at, number_within};
pub use signed::{read_signed, write_signed};
pub use token::{MAX_RID, Token};
