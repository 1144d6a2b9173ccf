//! The rows of a plan as numbers, column by column, and the heaps that the numbers point into (ECMA-335 II.22,
//! II.24.2.3 to II.24.2.6).
#![tactic(auto)]

mod cells;
mod column;
mod heap;
mod large_heaps;
mod placed;
mod rows;
mod signature;
mod starts;
mod strings;
mod table_column;
mod tables;

pub use large_heaps::heap_sizes;
pub use placed::Placed;
pub use tables::{WrittenTables, user_tokens, written_tables};
