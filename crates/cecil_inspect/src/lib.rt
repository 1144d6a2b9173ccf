//! What the program does: it takes the words of a command line, a folder and an outlet, and answers a status. The words
//! `dump FILE` print the rows of the types of an image, and `show FILE TOKEN` all that hangs on a row (ECMA-335 II.22),
//! one line each.
#![tactic(auto)]

mod dump;
mod line;
mod make;
mod promise;
mod refusal;
mod run;
mod show;
mod status;
mod words;

pub use node_read::OpenRefusal;
pub use promise::inspect_sound;
pub use refusal::add_decimal;
pub use run::{MAX_IMAGE_LENGTH, file_status, inspect, refused_status, send};
pub use status::{FileCause, Status, status_line};
pub use words::is_name;
