//! The job file: a JSON text that names images, says what each actor asks and changes in them, and which images are
//! written. Its definitions say which job a text denotes, and why another text denotes none.
#![tactic(auto)]

mod args;
mod argument;
mod arguments;
mod cell;
mod command;
mod commands;
mod digits;
mod edit_of;
mod form;
mod handler;
mod handler_argument;
mod job;
mod names;
mod new_row;
mod operand;
mod own_argument;
mod query_of;
mod reference;
mod replaced_edit;
mod replaced_query;
mod shape;
mod token;
mod values;
mod whole;
mod word;
mod write;

pub use command::Command;
pub use job::{Job, JobFail, JobRefusal, Write};
pub use reference::{BACK_REFERENCE, replace_token};
pub use replaced_edit::{replace_in_edit, replace_references};
pub use replaced_query::replace_in_query;
pub use shape::is_file_name;
pub use whole::job_of;
