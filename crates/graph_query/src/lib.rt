//! Queries of a graph in memory: the reply to each, or the first key that it looks at and that has no slot.
#![tactic(auto)]

mod answering;
mod assembly_names;
mod early;
mod graph;
mod halts;
mod laws;
mod names;
mod one_key;
mod row_texts;
mod searches;
mod sig_names;
mod type_names;
mod views;

pub use answering::{Peek, answer};
pub use early::early_reply;
pub use graph::QueryGraph;
pub use laws::queries_meet_the_graph;
