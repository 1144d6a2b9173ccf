//! Edits of a graph in memory: what each changes, or why it is refused, by the slots that are filled.
#![tactic(auto)]

mod applied;
mod applying;
mod cell_refusal;
mod change;
mod code_edits;
mod commit;
mod edits;
mod fit;
mod graph;
mod laws;
mod lists;
mod looked;
mod names;
mod placed_cells;
mod refusal;
mod row_cells;
mod row_change;
mod row_edits;
mod row_lists;
mod sig_names;
mod value_edits;

pub use applied::{Applied, Outcome};
pub use applying::apply;
pub use graph::EditGraph;
pub use laws::{
    done_is_the_next, edits_meet_the_graph, kept_is_the_same, needs_are_looked,
    slots_are_those_before,
};
pub use looked::needs;

#[cfg(test)]
mod tests;
