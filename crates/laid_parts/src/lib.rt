//! Bytes that are laid one part after the other, each at the next multiple of its boundary, with the place of each part.
#![tactic(auto)]

mod laws;
mod parts;

pub use laws::{parts_grow, parts_stand, places_are_lengths, places_are_multiples};
pub use parts::{Parts, TooLong};
