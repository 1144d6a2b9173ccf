//! The heaps of the metadata: texts of #Strings, blobs of #Blob and GUIDs of #GUID, each by its index, and the building of
//! all four heaps (ECMA-335 II.24.2.3 to II.24.2.5). User strings are read in `cil_base`, beside the numbers before them.
#![tactic(auto)]

mod blob;
mod builder;
mod content;
mod guid;
mod pool;
mod text;

pub use blob::blob_at;
pub use builder::{HeapBuilder, Heaps};
pub use guid::{GuidAt, guid_at};
pub use text::string_at;
