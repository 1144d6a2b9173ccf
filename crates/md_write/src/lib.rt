//! The tables stream `#~` of rows of numbers: its header, the counts and the rows (ECMA-335 II.24.2.6), and laws which
//! say that the cells, runs and linked rows that are read of it are those that were written.
#![tactic(auto)]

mod counts;
mod header;
mod laws;
mod number;
mod rows;
mod stream;

pub use counts::counts_of_rows;
pub use laws::{links_read, numbers_fit, runs_read, stream_holds_rows};
pub use stream::tables_stream;
