//! What is to be written of an edited graph: the rows that are kept, the order in which they are written and their new
//! numbers, and what the graph's keys hold; or why the graph is not written (ECMA-335 II.22, II.24.2.6).
#![tactic(auto)]

mod dangling;
mod held;
mod kept;
mod kept_rows;
mod laws;
mod met;
mod named;
mod numbered;
mod order;
mod plan;
mod refusal;
mod refused;
mod renamed;
mod row_cells;
mod sizes;
mod sorted;
mod taking;
mod unfit;
mod walk;
mod writing;

pub use laws::numbers_are_one_to_one;
pub use plan::Plan;
pub use refusal::WriteRefusal;
