//! Writes images of one section: the metadata with its root and five streams, and the headers before them (ECMA-335 II.24.2.1,
//! II.24.2.2, II.25). What is written is read by `pe_image` with the facts, the streams and the section that were given.
#![tactic(auto)]

mod contents;
mod fail;
mod field;
mod format;
mod headers;
mod image;
mod kind;
mod laws;
mod metadata;
mod write_root;

pub use contents::Contents;
pub use fail::PeWriteFail;
pub use image::{image_length, write_pe};
pub use laws::{facts_are_reread, images_are_reread, parts_are_reread, resources_are_reread};
pub use metadata::StreamBytes;
pub use write_root::write_metadata;
