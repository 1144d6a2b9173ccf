//! What the keys of an edited graph hold where they are not at fault, for the crates that write it (ECMA-335 II.22 to
//! II.25); and that the bytes of files and the parts of edits are what their types say.
#![tactic(auto)]

mod laws;
mod types;

pub use laws::graphs_hold;
pub use types::{are_bytes, edit_of_types};
