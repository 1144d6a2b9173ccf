//! Method bodies, read from their bytes: headers, instructions and handlers (ECMA-335 II.25.4 and III).
#![tactic(auto)]

mod branch;
mod clause;
mod decode;
mod fields;
mod handlers;
mod header;
mod numbering;
mod read_code;
mod read_operand;
mod section;
mod texts;

pub use decode::decode_body;
