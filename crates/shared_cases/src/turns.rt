//! The commands of one caller.
ghost use Rattle.std.specs.Prelude.{◌≡◌, ℕ, List};
ghost use Rattle.turn_lock.specs.Passes.{IsPassOf, LockValue};

use crate::print::{answer_text, edited_text};
use crate::script::Script;
use cil_base::{Bytes, List, NoMemory};
use node_model::{Edit, Query};
use shared_module::{Answer, Decoder, Edited, Pass, SharedModule};
use std::alloc::Global;
use std::sync::Wait;

/// What was answered to a query, if it is told.
fn answered(
    alloc: Global,
    answer: &Result<Answer, NoMemory>,
    is_told: bool,
) -> Result<Bytes, NoMemory> {
    match answer {
        Ok(answer) => {
            if is_told {
                return answer_text(alloc, answer);
            }
            Ok(List::new(alloc))
        }
        Err(NoMemory) => Err(NoMemory),
    }
}

/// Asks; with what was answered.
fn ask<R: Wait, G: Decoder>(
    rt: &R,
    alloc: Global,
    shared: &SharedModule,
    pass: Pass,
    number: u32,
    query: &Query,
    gate: &G,
    is_told: bool,
) -> (Pass, Result<Bytes, NoMemory>)
    requires { IsPassOf shared.now pass }
    ensures { IsPassOf shared.now result.0 × (result.0.number ≡ pass.number) }
{
    let (back, answer) = shared.ask(rt, alloc, pass, number, 0, query, gate);
    let text = answered(alloc, &answer, is_told);
    (back, text)
}

/// What was answered to an edit, if it is told.
fn edited(
    alloc: Global,
    answer: Result<Edited, NoMemory>,
    is_told: bool,
) -> Result<Bytes, NoMemory> {
    match answer {
        Ok(edited) => {
            if is_told {
                return edited_text(alloc, &edited);
            }
            Ok(List::new(alloc))
        }
        Err(NoMemory) => Err(NoMemory),
    }
}

/// Makes the first of the edits; with what was answered.
fn edit<R: Wait, G: Decoder>(
    rt: &R,
    alloc: Global,
    shared: &SharedModule,
    pass: Pass,
    number: u32,
    edits: &[Edit],
    gate: &G,
    is_told: bool,
) -> (Pass, Result<Bytes, NoMemory>)
    requires { IsPassOf shared.now pass }
    ensures { IsPassOf shared.now result.0 × (result.0.number ≡ pass.number) }
{
    match edits.first() {
        Some(first) => {
            let (back, answer) = shared.edit(rt, alloc, pass, number, first, gate);
            (back, edited(alloc, answer, is_told))
        }
        None => (pass, Ok(List::new(alloc))),
    }
}

/// Does the command of this number of a script; with what was answered, if the script's answers are told.
pub fn step<R: Wait, G: Decoder>(
    rt: &R,
    alloc: Global,
    shared: &SharedModule,
    pass: Pass,
    script: Script,
    number: u32,
    gate: &G,
) -> (Pass, Result<Bytes, NoMemory>)
    requires { IsPassOf shared.now pass }
    ensures { IsPassOf shared.now result.0 × (result.0.number ≡ pass.number) }
{
    let is_told = script.is_told();
    if let Some(query) = script.query(pass.number(), number) {
        return ask(rt, alloc, shared, pass, number, &query, gate, is_told);
    }
    match script.edit(alloc, pass.number(), number) {
        Ok(edits) => edit(
            rt,
            alloc,
            shared,
            pass,
            number,
            edits.as_slice(),
            gate,
            is_told,
        ),
        Err(NoMemory) => (pass, Err(NoMemory)),
    }
}

/// Does all commands of a script.
fn all_steps<R: Wait, G: Decoder>(
    rt: &R,
    alloc: Global,
    shared: &SharedModule,
    pass: Pass,
    script: Script,
    gate: &G,
) -> Pass
    requires { IsPassOf shared.now pass }
    ensures { IsPassOf shared.now result × (result.number ≡ pass.number) }
{
    let mut pass = pass;
    for number in 0..script.count() {
        let (back, _answer) = step(rt, alloc, shared, pass, script, number, gate);
        pass = back;
    }
    pass
}

/// What callers share, for threads, which then need to know of it that it may be shared, and no more.
pub trait Shared {
    ghost lock: { Self → LockValue (List ℕ) };

    /// Does all commands of a script.
    fn does_all<R: Wait, G: Decoder>(
        &self,
        rt: &R,
        alloc: Global,
        pass: Pass,
        script: Script,
        gate: &G,
    ) -> Pass
        requires { IsPassOf (lock self.now) pass }
        ensures { IsPassOf (lock self.now) result × (result.number ≡ pass.number) };
}

impl Shared for SharedModule {
    ghost lock = { λ m. m };

    fn does_all<R: Wait, G: Decoder>(
        &self,
        rt: &R,
        alloc: Global,
        pass: Pass,
        script: Script,
        gate: &G,
    ) -> Pass {
        all_steps(rt, alloc, self, pass, script, gate)
    }
}
