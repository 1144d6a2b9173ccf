//! Reading an image: what each of its keys holds, by the bytes of the file alone (ECMA-335 II.22 to II.25).
#![tactic(auto)]

mod body;
mod cell;
mod columns;
mod field_data;
mod front;
mod image;
mod laws;
mod linked;
mod lists;
mod read;
mod resource;
mod row;
mod signature;
mod streams;

pub use image::{Image, OpenRefusal};
pub use laws::{image_is_not_refused, image_is_shared};
pub use read::read_key;
