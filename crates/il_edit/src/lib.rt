//! Edits of a method's body in place: an instruction is put in, taken out or exchanged, a handler is added or taken
//! out, and the targets and bounds go along (ECMA-335 II.25.4 and III.1.7.2). What is refused, and in which order,
//! `IlRefusal` says.
#![tactic(auto)]

mod check;
mod code;
mod fail;
mod handlers;
mod laws;
mod moved;
mod refused;
mod shift;

pub use code::{insert, remove, replace};
pub use fail::IlFail;
pub use handlers::{add_handler, remove_handler};
pub use il_code::IlRefusal;
pub use laws::inserted_and_removed;
pub use refused::body_refused;
