//! The graph of an image, as values: what its keys hold, the queries and their replies, the edits and their refusals,
//! and the entries of a history. The definitions speak of the bytes of the image and of the edits alone (ECMA-335 II.22
//! to II.25).
#![tactic(auto)]

mod cell;
mod change;
mod edit;
mod edit_copy;
mod edit_refusal;
mod entry;
mod key;
mod key_kind;
mod kinds;
mod look;
mod nodes;
mod parts;
mod place;
mod query;
mod reply;
mod slot;
mod sort;
mod stop;
mod value;
mod walk;

pub use cell::Cell;
pub use change::{Change, RowChange};
pub use edit::{Edit, OptSig};
pub use edit_copy::copy_edits;
pub use edit_refusal::EditRefusal;
pub use entry::{By, Entry, Why};
pub use key::Key;
pub use key_kind::{has_kind, has_sig, is_root_table, may_link, owns_table, sig_column};
pub use kinds::{KeyKind, key_of_kind, root_kinds, row_kinds};
pub use look::{Graph, Look};
pub use nodes::{RowStatus, RowsThere};
pub use parts::{
    body_part, data_part, facts_part, linked_part, owned_part, resource_part, row_part, sig_part,
};
pub use place::{image_shape, row_keys};
pub use query::{OptText, Query};
pub use reply::{MethodView, Reply, TypeView};
pub use slot::{Fault, FaultKind, Slot};
pub use sort::sort_fits;
pub use stop::Stop;
pub use value::{BodyValue, ResourceValue, RowValue, Value, copy_cells};
pub use walk::Halt;
