use cecil_inspect::{Status, inspect, inspect_sound};
use cil_base::{List, NoMemory};
use cil_outside::{
    Folder, Got, MemoryOutlet, NamedFile, Outlet, SoundFolder, SoundOutlet, TableFolder,
};
use std::alloc::Global;

/// The files of a run's folder, the calls that fail, and the words.
#[derive(Drop)]
pub struct Setting {
    pub name: String,
    pub bytes: Option<Vec<u8>>,
    pub second: Option<u8>,
    pub failing_reads: Vec<u64>,
    pub failing_writes: Vec<u64>,
    pub sound: bool,
    pub words: Vec<String>,
}

/// What a run left: its status and the text that it wrote.
#[derive(Drop)]
pub struct Outcome {
    pub status: Status,
    pub text: Vec<u8>,
}

/// A file of the setting's name.
fn named(alloc: Global, setting: &Setting, bytes: &[u8]) -> Result<NamedFile, NoMemory> {
    let name = List::from_slice(alloc, setting.name.as_bytes())?;
    let bytes = List::from_slice(alloc, bytes)?;
    Ok(NamedFile { name, bytes })
}

/// The files of the folder.
fn files(alloc: Global, setting: &Setting) -> Result<Vec<NamedFile>, NoMemory> {
    let mut files = Vec::new(alloc);
    if let Some(bytes) = &setting.bytes {
        files.push(named(alloc, setting, bytes.as_slice())?)?;
    }
    if let Some(byte) = setting.second {
        files.push(named(alloc, setting, &[byte])?.copy()?)?;
    }
    Ok(files)
}

/// What the folder gives for the setting's file, within a limit of bytes.
pub fn content(alloc: Global, setting: &Setting, limit: u64) -> Result<Got, NoMemory> {
    let files = files(alloc, setting)?;
    let reads = Vec::from_slice(alloc, setting.failing_reads.as_slice())?;
    let mut folder = TableFolder::new(files, reads);
    folder.read(alloc, setting.name.as_str(), limit)?.copy()
}

/// Runs `inspect` over a folder and an outlet by their traits alone.
fn inspected<F: Folder, O: Outlet>(
    alloc: Global,
    setting: &Setting,
    folder: &mut F,
    out: &mut O,
) -> Status {
    inspect(alloc, setting.words.as_slice(), folder, out)
}

/// Runs `inspect` over a folder and an outlet in memory: those that never fail where the setting is sound.
pub fn run(alloc: Global, setting: &Setting) -> Result<Outcome, NoMemory> {
    let files = files(alloc, setting)?;
    if setting.sound {
        let mut folder = SoundFolder::new(files);
        let mut out = SoundOutlet::new(alloc);
        let status = inspect_sound(alloc, setting.words.as_slice(), &mut folder, &mut out);
        let text = Vec::from_slice(alloc, out.written())?;
        return Ok(Outcome { status, text });
    }
    let reads = Vec::from_slice(alloc, setting.failing_reads.as_slice())?;
    let writes = Vec::from_slice(alloc, setting.failing_writes.as_slice())?;
    let mut folder = TableFolder::new(files, reads);
    let mut out = MemoryOutlet::new(alloc, writes);
    let status = inspected(alloc, setting, &mut folder, &mut out);
    let text = Vec::from_slice(alloc, out.written())?;
    Ok(Outcome { status, text })
}
