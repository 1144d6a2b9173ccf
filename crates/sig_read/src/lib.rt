//! Signatures read from blobs (ECMA-335 II.23.2).
#![tactic(auto)]

mod parse;
mod read_leaf;
mod read_number;
mod read_type;

pub use parse::parse_sig;
