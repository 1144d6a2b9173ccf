//! PE images: headers, sections, the CLI header, the root and the streams of the metadata, or the first of ten refusals
//! (ECMA-335 II.24.2.1, II.24.2.2, II.25). Every number in an image is little-endian.
#![tactic(auto)]

mod facts;
mod headers;
mod image;
mod metadata;
mod number;
mod places;
mod refusal;
mod section;
mod stream;

pub use facts::Facts;
pub use image::Pe;
pub use refusal::{PeFail, PeRefusal};
pub use stream::StreamName;
