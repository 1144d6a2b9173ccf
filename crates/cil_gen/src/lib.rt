//! A large input from a number: the small image, and the edits that make an assembly of so many types of it, each with a
//! field and three methods (ECMA-335 II.22.37, II.22.15, II.22.26).
#![tactic(auto)]

mod edits;
mod image;
mod laws;
mod values;

pub use edits::gen_edits;
pub use image::small_image;
pub use laws::{each_is_done, each_looks_at_one, small_image_opens};
