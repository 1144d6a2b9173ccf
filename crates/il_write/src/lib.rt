//! Method bodies, written as bytes: headers, instructions and handlers (ECMA-335 II.25.4 and III).
#![tactic(auto)]

mod encode;
mod far;
mod places;
mod put;
mod writable;
mod write_code;
mod write_header;
mod write_operand;
mod write_section;

pub use encode::encode_body;
pub use writable::is_writable;
