use crate::gates::GateKind;
use cil_base::{List, NoMemory};
use cil_outside::NamedFile;
use std::alloc::Global;
use std::fs;
use std::io::Read;
use std::rt::Files;

/// What a case runs on: the words, the files of the folder, the numbers of the calls that fail, whether no call can, and
/// the gate of the actors.
#[derive(Drop)]
pub struct Setting {
    pub words: Vec<String>,
    pub files: Vec<NamedFile>,
    pub failing_reads: Vec<u64>,
    pub failing_writes: Vec<u64>,
    pub sound: bool,
    pub gate: GateKind,
}

/// A number in decimal, or 0.
fn number(text: Option<&str>) -> u64 {
    text.unwrap_or("").parse::<u64>().unwrap_or(0)
}

/// A byte in decimal; a number past 255 is 255.
fn byte(text: Option<&str>) -> u8 {
    number(text).min(255) as u8
}

/// The bytes of a file of the current folder; none where it cannot be read.
fn content<R: Files>(alloc: Global, rt: &R, name: &str) -> Vec<u8> {
    let mut bytes = Vec::new(alloc);
    if let Ok(mut file) = fs::open(rt, name) {
        let _ = file.read_to_end(&mut bytes);
    }
    bytes
}

/// Adds a file.
fn add_file(
    alloc: Global,
    files: &mut Vec<NamedFile>,
    name: &str,
    bytes: Vec<u8>,
) -> Result<(), NoMemory> {
    let name = List::from_slice(alloc, name.as_bytes())?;
    files.push(NamedFile {
        name,
        bytes: List::from_vec(bytes),
    })?;
    Ok(())
}

/// So many zeros.
fn zeros(alloc: Global, length: u64) -> Result<Vec<u8>, NoMemory> {
    let mut bytes = Vec::new(alloc);
    bytes.resize(length.min(0x1_0000_0000) as usize, 0)?;
    Ok(bytes)
}

/// Sets a byte of a file, at a place that is there.
fn set(files: &mut [NamedFile], name: &str, place: u64, byte: u8) {
    for file in files {
        let length = file.bytes.len() as u64;
        if file.name.as_slice() == name.as_bytes() && place < length {
            let _old = file.bytes.set(place as usize, byte);
        }
    }
}

/// Makes one change.
fn change<R: Files>(
    alloc: Global,
    rt: &R,
    setting: &mut Setting,
    text: &str,
) -> Result<(), NoMemory> {
    let mut parts = text.split(' ');
    let kind = parts.next();
    let first = parts.next();
    let second = parts.next();
    let name = first.unwrap_or("");
    match kind {
        Some("file") => {
            let bytes = content(alloc, rt, second.unwrap_or(""));
            add_file(alloc, &mut setting.files, name, bytes)?;
        }
        Some("zeros") => {
            let bytes = zeros(alloc, number(second))?;
            add_file(alloc, &mut setting.files, name, bytes)?;
        }
        Some("set") => {
            let byte = byte(parts.next());
            set(setting.files.as_mut_slice(), name, number(second), byte);
        }
        Some("read") => setting.failing_reads.push(number(first))?,
        Some("write") => setting.failing_writes.push(number(first))?,
        Some("sound") => setting.sound = true,
        Some("hold") => setting.gate = GateKind::Hold(number(first).min(1) as u32),
        Some("late") => setting.gate = GateKind::Late(number(first).min(1) as u32),
        Some("meet") => setting.gate = GateKind::Meet,
        _ => {}
    }
    Ok(())
}

/// The words of a command line.
fn words(alloc: Global, text: &str) -> Result<Vec<String>, NoMemory> {
    let mut words = Vec::new(alloc);
    if text.is_empty() {
        return Ok(words);
    }
    for word in text.split(' ') {
        words.push(String::from_str(alloc, word)?)?;
    }
    Ok(words)
}

/// The setting of a case.
pub fn setting_of<R: Files>(alloc: Global, rt: &R, line: &str) -> Result<Setting, NoMemory> {
    let (head, job) = line.split_once(" -- ").unwrap_or((line, ""));
    let (command, changes) = head.split_once("; ").unwrap_or((head, ""));
    let mut setting = Setting {
        words: words(alloc, command)?,
        files: Vec::new(alloc),
        failing_reads: Vec::new(alloc),
        failing_writes: Vec::new(alloc),
        sound: false,
        gate: GateKind::Open,
    };
    if !job.is_empty() {
        let bytes = Vec::from_slice(alloc, job.as_bytes())?;
        add_file(alloc, &mut setting.files, "job.json", bytes)?;
    }
    for text in changes.split("; ") {
        change(alloc, rt, &mut setting, text)?;
    }
    Ok(setting)
}
