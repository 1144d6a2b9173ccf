use crate::gates::{GateKind, hold, late, meet};
use crate::setting::Setting;
use cecil_top::{Status, tool, tool_sound};
use cil_base::NoMemory;
use cil_outside::{Folder, MemoryOutlet, OpenGate, Outlet, SoundFolder, SoundOutlet, TableFolder};
use shared_module::Decoder;
use std::alloc::Global;
use std::sync::Wait;
use std::thread::Threads;

/// What a run left: its status and the text that it wrote.
#[derive(Drop)]
pub struct Outcome {
    pub status: Status,
    pub text: Vec<u8>,
}

/// Runs `tool` by the traits of what it is given alone.
fn run<R: Threads + Wait + Sync, F: Folder, O: Outlet, G: Decoder + Sync>(
    rt: &R,
    alloc: Global,
    words: &[String],
    folder: &mut F,
    out: &mut O,
    gate: &G,
) -> Status {
    tool(rt, alloc, words, folder, out, gate)
}

/// Runs `tool` over a folder and an outlet of which no call fails.
fn over_sound<R: Threads + Wait + Sync>(
    rt: &R,
    alloc: Global,
    setting: Setting,
) -> Result<Outcome, NoMemory> {
    let mut folder = SoundFolder::new(setting.files);
    let mut out = SoundOutlet::new(alloc);
    let status = tool_sound(
        rt,
        alloc,
        setting.words.as_slice(),
        &mut folder,
        &mut out,
        &OpenGate,
    );
    let text = Vec::from_slice(alloc, out.written())?;
    Ok(Outcome { status, text })
}

/// Runs `tool` over a folder and an outlet of which the named calls fail.
pub fn over_tables<R: Threads + Wait + Sync, G: Decoder + Sync>(
    rt: &R,
    alloc: Global,
    setting: Setting,
    gate: &G,
) -> Result<Outcome, NoMemory> {
    let mut folder = TableFolder::new(setting.files, setting.failing_reads);
    let mut out = MemoryOutlet::new(alloc, setting.failing_writes);
    let status = run(
        rt,
        alloc,
        setting.words.as_slice(),
        &mut folder,
        &mut out,
        gate,
    );
    let text = Vec::from_slice(alloc, out.written())?;
    Ok(Outcome { status, text })
}

/// Runs `tool` over a folder and an outlet in memory.
pub fn outcome_of<R: Threads + Wait + Sync>(
    rt: &R,
    alloc: Global,
    setting: Setting,
) -> Result<Outcome, NoMemory> {
    if setting.sound {
        return over_sound(rt, alloc, setting);
    }
    match setting.gate {
        GateKind::Open => over_tables(rt, alloc, setting, &OpenGate),
        GateKind::Hold(actor) => hold(rt, alloc, actor, setting),
        GateKind::Late(actor) => late(rt, alloc, actor, setting),
        GateKind::Meet => meet(rt, alloc, setting),
    }
}
