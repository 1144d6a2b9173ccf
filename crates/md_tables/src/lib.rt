//! The tables stream of an image: its header, where its rows and cells stand, the runs of rows that a row owns, and the
//! rows that are linked to one (ECMA-335 II.24.2.6 and II.22).
#![tactic(auto)]

mod cell;
mod column_places;
mod header;
mod laws;
mod layout;
mod link_index;
mod link_list;
mod link_row;
mod links;
mod runs;
mod tables;

pub use laws::{rows_read_back, whole_is_not_refused};
pub use link_index::LinkIndex;
pub use tables::{Tables, TablesRefusal};
