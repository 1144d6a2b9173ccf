//! How replies are printed, each as one line: rows with the names of their columns, keys, signatures, bodies, data,
//! resources, facts and faults (ECMA-335 II.22 to II.25, III for the names). Every text is added to one buffer.
#![tactic(auto)]

mod body;
mod entry;
mod facts;
mod fault;
mod key;
mod names;
mod operand;
mod outcome;
mod pieces;
mod reply;
mod row;
mod view;

pub use entry::entry_text;
pub use outcome::outcome_text;
pub use reply::{add_reply, reply_text};
