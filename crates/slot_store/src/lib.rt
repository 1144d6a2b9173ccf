//! Slots by their keys: a finite map that is filled once, and whose slots can be replaced. The slots of the keys whose
//! places are known from the start lie in vectors by these places, those of all other keys in a map. Neither keys nor
//! slots are those of ECMA-335 here; both are types that the user brings.
#![tactic(auto)]

mod numbers;
mod place;
mod slots;
mod values;

pub use place::{HasPlace, Place, Shape};
pub use slots::Slots;

#[cfg(test)]
mod tests;
