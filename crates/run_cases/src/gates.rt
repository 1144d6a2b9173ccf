use crate::outcome::{Outcome, over_tables};
use crate::setting::Setting;
use cil_base::NoMemory;
use cil_outside::HoldGate;
use shared_module::MeetGate;
use std::alloc::Global;
use std::sync::Wait;
use std::thread::Threads;

/// The most looks of a gate that waits.
const MOST_LOOKS: u64 = 200_000_000;

/// The gate of a run.
#[derive(Clone, Copy)]
pub enum GateKind {
    /// Nobody waits.
    Open,
    /// This one of the first two actors waits where its first command needs a key, until the other's was answered.
    Hold(u32),
    /// The same, and the text is asked for, which has to be the same in each run.
    Late(u32),
    /// The first two actors wait for each other while they decode.
    Meet,
}

/// The gate that holds this one of actors 0 and 1.
fn gate_of(actor: u32) -> HoldGate {
    let other = if actor == 0 { 1 } else { 0 };
    HoldGate::new(actor, 0, other, 0, MOST_LOOKS)
}

/// Runs `tool` with a gate that holds one actor.
pub fn late<R: Threads + Wait + Sync>(
    rt: &R,
    alloc: Global,
    actor: u32,
    setting: Setting,
) -> Result<Outcome, NoMemory> {
    over_tables(rt, alloc, setting, &gate_of(actor))
}

/// Runs `tool` with a gate that holds one actor. The text is what the gate tells: which of two entries comes first is
/// known, but not at which point a fill was wanted.
pub fn hold<R: Threads + Wait + Sync>(
    rt: &R,
    alloc: Global,
    actor: u32,
    setting: Setting,
) -> Result<Outcome, NoMemory> {
    let gate = gate_of(actor);
    let outcome = over_tables(rt, alloc, setting, &gate)?;
    let (held, reached) = (gate.held(), gate.reached_limit());
    let told = format!(in alloc; "held {held} limit {reached}")?;
    let text = Vec::from_slice(alloc, told.as_bytes())?;
    Ok(Outcome { text, ..outcome })
}

/// Runs `tool` with a gate at which two actors meet. The text is what the gate tells.
pub fn meet<R: Threads + Wait + Sync>(
    rt: &R,
    alloc: Global,
    setting: Setting,
) -> Result<Outcome, NoMemory> {
    let gate = MeetGate::new(MOST_LOOKS);
    let outcome = over_tables(rt, alloc, setting, &gate)?;
    let met = gate.met();
    let told = format!(in alloc; "met {met}")?;
    let text = Vec::from_slice(alloc, told.as_bytes())?;
    Ok(Outcome { text, ..outcome })
}
