//! Where references lead over several modules, and what attributes say, as questions: an `Ask` says what it wants to
//! know next and of which module, and takes the replies one by one. It knows no module itself (ECMA-335 II.22, II.23.3).
#![tactic(auto)]

mod ask;
mod assemblies;
mod attributes;
mod cells;
mod enum_names;
mod enum_widths;
mod exchange;
mod fits;
mod found;
mod left;
mod members;
mod named_types;
mod nested;
mod next;
mod parameters;
mod questions;
mod reading;
mod references;
mod start;
mod state;
mod values;
mod waiting;

pub use ask::Ask;
pub use exchange::Exchange;
pub use next::Next;
pub use start::{Sought, Start};
