//! Signatures in text and in bytes: printed, with their type tokens or with names in their places, and spelled
//! (ECMA-335 II.23.2).
#![tactic(auto)]

mod chars;
mod names;
mod pieces;
mod print;
mod spell;
mod symbols;

pub use print::{print_named, print_sig};
pub use spell::spell_sig;
