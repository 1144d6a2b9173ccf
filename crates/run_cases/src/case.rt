use crate::outcome::{Outcome, outcome_of};
use crate::setting::setting_of;
use cecil_top::status_line;
use cil_base::NoMemory;
use std::alloc::Global;
use std::rt::Files;
use std::sync::Wait;
use std::thread::Threads;

/// Adds the lines of a text, each after two spaces.
fn add_lines(lines: &mut Vec<u8>, text: &[u8]) -> Result<(), NoMemory> {
    for line in text.split(|byte| *byte == b'\n') {
        if !line.is_empty() {
            lines.extend_from_slice(b"  ")?;
            lines.extend_from_slice(line)?;
            lines.push(b'\n')?;
        }
    }
    Ok(())
}

/// The lines of one run.
fn lines(alloc: Global, case: u64, outcome: &Outcome) -> Result<Vec<u8>, NoMemory> {
    let line = status_line(alloc, &outcome.status)?;
    let head = format!(in alloc; "{case} {}", outcome.status.number())?;
    let mut lines = Vec::from_slice(alloc, head.as_bytes())?;
    if !line.is_empty() {
        lines.push(b' ')?;
        lines.extend_from_slice(line.as_slice())?;
    }
    lines.push(b'\n')?;
    add_lines(&mut lines, outcome.text.as_slice())?;
    Ok(lines)
}

/// What is printed of a case.
pub fn answer<R: Threads + Wait + Files + Sync>(
    rt: &R,
    alloc: Global,
    case: u64,
    line: &str,
) -> Result<Vec<u8>, NoMemory> {
    let setting = setting_of(alloc, rt, line)?;
    let outcome = outcome_of(rt, alloc, setting)?;
    lines(alloc, case, &outcome)
}
