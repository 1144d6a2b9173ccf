//! The program `cecil`: it runs over the files of the current folder and writes to standard output.
#![tactic(auto)]

mod command_line;
mod current_folder;
mod ending;
mod standard_output;

use cecil_top::{Status, tool};
use cil_outside::OpenGate;
use command_line::words;
use current_folder::CurrentFolder;
use ending::{exit_code, tell};
use standard_output::StandardOutput;
use std::alloc::Global;
use std::io::Write;
use std::process::ExitCode;
use std::rt::Files;
use std::sync::Wait;
use std::thread::Threads;

/// Does what the words say.
fn run<R: Threads + Wait + Files + Sync, W: Write + Drop>(
    rt: &R,
    alloc: Global,
    words: &[String],
    out: W,
) -> Status {
    let mut folder = CurrentFolder::new(rt);
    let mut out = StandardOutput::new(out, rt);
    tool(rt, alloc, words, &mut folder, &mut out, &OpenGate)
}

/// A fault on standard error is let go: there is no place left to tell it.
fn main(rt: HostRuntime) -> ExitCode {
    let status = match words(&rt) {
        Ok(words) => run(&rt, rt.alloc(), words.as_slice(), rt.stdout()),
        Err(status) => status,
    };
    let _ = tell(rt.alloc(), &mut rt.stderr(), &status);
    exit_code(&status)
}
