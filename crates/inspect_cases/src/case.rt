use crate::digest::{EMPTY, go_on};
use crate::number::{byte, number, place};
use crate::run::{Outcome, Setting, content, run};
use crate::steps;
use cecil_inspect::status_line;
use cil_base::{NoMemory, Token};
use cil_outside::Got;
use std::alloc::Global;
use std::fs;
use std::io::Read;
use std::rt::Files;

/// Which runs a case makes.
#[derive(Clone, Copy)]
enum Runs {
    /// One.
    Once,
    /// One for each length from the first up to the second.
    Cuts(usize, usize),
    /// One for each place from the first up to the second, which is set to the byte.
    Bytes(usize, usize, u8),
    /// None: what the folder gives within a limit of bytes is told.
    Content(u64),
    /// None: the steps on a core that ask for the row of this token are taken.
    Steps(u64),
}

/// The bytes of a file of the current folder; none where it cannot be read.
fn file<R: Files>(alloc: Global, rt: &R, name: &str) -> Option<Vec<u8>> {
    let mut bytes = Vec::new(alloc);
    let mut file = fs::open(rt, name).ok()?;
    file.read_to_end(&mut bytes).ok()?;
    Some(bytes)
}

/// The words behind ` -- `; none where nothing stands there.
fn words(alloc: Global, text: &str) -> Result<Vec<String>, NoMemory> {
    let mut words = Vec::new(alloc);
    if text.is_empty() {
        return Ok(words);
    }
    for word in text.split(' ') {
        words.push(String::from_str(alloc, word)?)?;
    }
    Ok(words)
}

/// Sets the byte at a place that is there.
fn set(bytes: &mut Option<Vec<u8>>, place: usize, byte: u8) {
    if let Some(bytes) = bytes {
        if let Some(slot) = bytes.get_mut(place) {
            *slot = byte;
        }
    }
}

/// Makes one change; a sweep is the answer.
fn change(setting: &mut Setting, text: &str) -> Result<Option<Runs>, NoMemory> {
    let mut parts = text.split(' ');
    let name = parts.next();
    let first = parts.next();
    let second = parts.next();
    match name {
        Some("set") => set(&mut setting.bytes, place(first), byte(second)),
        Some("cut") => {
            if let Some(bytes) = &mut setting.bytes {
                bytes.truncate(place(first));
            }
        }
        Some("grow") => {
            if let Some(bytes) = &mut setting.bytes {
                bytes.resize(place(first), 0)?;
            }
        }
        Some("twice") => setting.second = Some(byte(first)),
        Some("read") => setting.failing_reads.push(number(first))?,
        Some("write") => setting.failing_writes.push(number(first))?,
        Some("sound") => setting.sound = true,
        Some("content") => return Ok(Some(Runs::Content(number(first)))),
        Some("steps") => return Ok(Some(Runs::Steps(number(first)))),
        Some("cuts") => return Ok(Some(Runs::Cuts(place(first), place(second)))),
        Some("bytes") => {
            let byte = byte(parts.next());
            return Ok(Some(Runs::Bytes(place(first), place(second), byte)));
        }
        _ => {}
    }
    Ok(None)
}

/// The setting of a case with its changes made, and which runs it makes.
fn setting<R: Files>(alloc: Global, rt: &R, line: &str) -> Result<(Setting, Runs), NoMemory> {
    let (changes, after) = line.split_once(" -- ").unwrap_or((line, ""));
    let (name, changes) = changes.split_once("; ").unwrap_or((changes, ""));
    let mut setting = Setting {
        name: String::from_str(alloc, name)?,
        bytes: file(alloc, rt, name),
        second: None,
        failing_reads: Vec::new(alloc),
        failing_writes: Vec::new(alloc),
        sound: false,
        words: words(alloc, after)?,
    };
    let mut runs = Runs::Once;
    for text in changes.split("; ") {
        if let Some(sweep) = change(&mut setting, text)? {
            runs = sweep;
        }
    }
    Ok((setting, runs))
}

/// A digest that goes on by the number of a run's status, its line and the text.
fn digest(alloc: Global, sum: u64, outcome: &Outcome) -> Result<u64, NoMemory> {
    let line = status_line(alloc, &outcome.status)?;
    let number = outcome.status.number();
    Ok(go_on(sum, number, line.as_slice(), outcome.text.as_slice()))
}

/// The digest of the runs over all lengths from the greatest down to the least.
fn cuts(alloc: Global, setting: &mut Setting, from: usize, to: usize) -> Result<u64, NoMemory> {
    let whole = match &setting.bytes {
        Some(bytes) => Vec::from_slice(alloc, bytes.as_slice())?,
        None => Vec::new(alloc),
    };
    let mut sum = EMPTY;
    for length in from..to {
        let mut bytes = Vec::from_slice(alloc, whole.as_slice())?;
        bytes.truncate(length);
        setting.bytes = Some(bytes);
        let outcome = run(alloc, setting)?;
        sum = digest(alloc, sum, &outcome)?;
    }
    Ok(sum)
}

/// The digest of the runs with each of these places set to the byte.
fn bytes(
    alloc: Global,
    setting: &mut Setting,
    from: usize,
    to: usize,
    byte: u8,
) -> Result<u64, NoMemory> {
    let mut sum = EMPTY;
    for place in from..to {
        let old = match &setting.bytes {
            Some(bytes) => bytes.get(place).copied().unwrap_or(0),
            None => 0,
        };
        set(&mut setting.bytes, place, byte);
        let outcome = run(alloc, setting)?;
        sum = digest(alloc, sum, &outcome)?;
        set(&mut setting.bytes, place, old);
    }
    Ok(sum)
}

/// The lines of one run.
fn lines(alloc: Global, case: u64, outcome: &Outcome) -> Result<Vec<u8>, NoMemory> {
    let status = outcome.status.copy()?;
    let line = status_line(alloc, &status)?;
    let head = format!(in alloc; "{case} {}", outcome.status.number())?;
    let mut text = Vec::from_slice(alloc, head.as_bytes())?;
    if !line.is_empty() {
        text.push(b' ')?;
        text.extend_from_slice(line.as_slice())?;
    }
    text.push(b'\n')?;
    for line in outcome.text.as_slice().split(|byte| *byte == b'\n') {
        if !line.is_empty() {
            text.extend_from_slice(b"  ")?;
            text.extend_from_slice(line)?;
            text.push(b'\n')?;
        }
    }
    Ok(text)
}

/// The line of what a folder gave.
fn told(alloc: Global, case: u64, got: &Got) -> Result<Vec<u8>, NoMemory> {
    let text = match got {
        Got::Found(bytes) => format!(in alloc; "{case} found {}\n", bytes.len())?,
        Got::Missing => format!(in alloc; "{case} missing\n")?,
        Got::TooLong => format!(in alloc; "{case} too long\n")?,
        Got::Failed => format!(in alloc; "{case} failed\n")?,
    };
    Ok(Vec::from_slice(alloc, text.as_bytes())?)
}

/// The line of the steps on a core of the setting's file.
fn taken(alloc: Global, case: u64, setting: &Setting, token: u64) -> Result<Vec<u8>, NoMemory> {
    let file = match &setting.bytes {
        Some(bytes) => Vec::from_slice(alloc, bytes.as_slice())?,
        None => Vec::new(alloc),
    };
    let token = Token::from_number((token % 0x1_0000_0000) as u32);
    steps::line(alloc, case, file, token)
}

/// What is printed of a case.
pub fn answer(rt: &HostRuntime, case: u64, line: &str) -> Result<Vec<u8>, NoMemory> {
    let alloc = rt.alloc();
    let (mut setting, runs) = setting(alloc, rt, line)?;
    let sum = match runs {
        Runs::Once => return lines(alloc, case, &run(alloc, &setting)?),
        Runs::Steps(token) => return taken(alloc, case, &setting, token),
        Runs::Content(limit) => return told(alloc, case, &content(alloc, &setting, limit)?),
        Runs::Cuts(from, to) => cuts(alloc, &mut setting, from, to)?,
        Runs::Bytes(from, to, byte) => bytes(alloc, &mut setting, from, to, byte)?,
    };
    let text = format!(in alloc; "{case} digest {sum:016x}\n")?;
    Ok(Vec::from_slice(alloc, text.as_bytes())?)
}
