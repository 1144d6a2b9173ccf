//! Method bodies as values: the table of instructions, bodies with their instructions and handlers, and where each
//! instruction stands. The definitions say too which bytes spell a body, how a body is written and what an edit makes
//! of it (ECMA-335 II.25.4 and III).
#![tactic(auto)]

mod body;
mod clause;
pub mod format;
mod handler;
mod header;
mod il_refusal;
mod instr;
mod kind;
mod laws;
mod name;
mod of_kind;
mod op;
mod operand;
mod places;
mod refusal;
mod section;
mod table;

pub use body::Body;
pub use clause::Clause;
pub use handler::{Handler, HandlerKind};
pub use header::Header;
pub use il_refusal::IlRefusal;
pub use instr::Instr;
pub use kind::OperandKind;
pub use laws::spells_alone;
pub use name::op_name;
pub use of_kind::is_of_kind;
pub use op::operand_kind;
pub use operand::Operand;
pub use places::{Places, number_of, places_of};
pub use refusal::BodyRefusal;
pub use section::{Section, clause_len};
