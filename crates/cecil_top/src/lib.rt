//! What the program does: `tool` takes the words of a command line, a folder and an outlet, and answers a status.
//!
//! The words `run JOB` are a run of many actors over many modules. Each actor does its commands in order, in a thread of
//! its own where one can be started; the modules are shared. What comes of it is a record: the history of each module,
//! and what was answered to each command with the point of the history at which it is true. The record explains the run
//! by itself, whatever the schedule was, and the text that is written is the text of that record.
#![tactic(auto)]

mod actor;
mod closing;
mod command;
mod end_text;
mod following;
mod images;
mod job_file;
mod opening;
mod passes;
mod program;
mod record;
mod replacing;
mod run;
mod said;
mod sound;
mod text;
mod words;

pub use cecil_inspect::{FileCause, Status, inspect, status_line};
pub use program::tool;
pub use record::{ActorRecord, RunRecord};
pub use run::run_job;
pub use said::{Asked, Resolution, Said};
pub use sound::tool_sound;
pub use text::run_text;
