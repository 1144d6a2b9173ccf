//! Two callers on one thread.
ghost use Rattle.std.specs.Prelude.{◌≡◌, [], IfOk, IfSome};
ghost use Rattle.turn_lock.specs.Passes.{AreAllOf, IsPassOf, fresh_passes};

use crate::print::history_text;
use crate::script::Script;
use crate::turns::step;
use cil_base::{Bytes, List, NoMemory};
use cil_outside::OpenGate;
use lazy_core::Core;
use shared_module::{Pass, SharedModule};
use std::alloc::Global;
use std::sync::Wait;

/// The passes of two callers, by number.
fn both(shared: &SharedModule, mut passes: List<Pass>) -> Option<(Pass, Pass)>
    requires { (shared.now.callers ≡ 2) × (passes ≡ fresh_passes shared.now) }
    ensures first { IfSome result (λ r. IsPassOf shared.now r.0 × (r.0.number ≡ 0)) }
    ensures second { IfSome result (λ r. IsPassOf shared.now r.1 × (r.1.number ≡ 1)) }
{
    let second = passes.pop()?;
    let first = passes.pop()?;
    Some((first, second))
}

/// Both passes again in a list.
fn together(
    alloc: Global,
    shared: &SharedModule,
    first: Pass,
    second: Pass,
) -> Result<List<Pass>, NoMemory>
    requires callers { shared.now.callers ≡ 2 }
    requires first { IsPassOf shared.now first × (first.number ≡ 0) }
    requires second { IsPassOf shared.now second × (second.number ≡ 1) }
    ensures { IfOk result (λ passes. AreAllOf shared.now passes) }
{
    let mut passes = List::new(alloc);
    passes.push(first)?;
    passes.push(second)?;
    Ok(passes)
}

/// Does a command of the script, and adds what was answered to the text.
fn told<R: Wait>(
    rt: &R,
    alloc: Global,
    shared: &SharedModule,
    pass: Pass,
    number: u32,
    text: &mut Bytes,
) -> Result<Pass, NoMemory>
    requires { IsPassOf shared.now pass }
    ensures { IfOk result (λ back. IsPassOf shared.now back × (back.number ≡ pass.number)) }
{
    let (back, answer) = step(rt, alloc, shared, pass, Script::Turns, number, &OpenGate);
    text.extend(answer?.as_slice())?;
    text.extend(b"; ")?;
    Ok(back)
}

/// Two callers take turns; what each was answered, and the history.
pub fn in_turn<R: Wait>(rt: &R, alloc: Global, core: Core) -> Result<Bytes, NoMemory>
    requires { core.history ≡ [] }
{
    let (shared, passes) = SharedModule::open(alloc, core, 2)?;
    let mut text = List::new(alloc);
    let Some((first, second)) = both(&shared, passes) else {
        return Ok(text);
    };
    let first = told(rt, alloc, &shared, first, 0, &mut text)?;
    let second = told(rt, alloc, &shared, second, 0, &mut text)?;
    let first = told(rt, alloc, &shared, first, 1, &mut text)?;
    let second = told(rt, alloc, &shared, second, 1, &mut text)?;
    let passes = together(alloc, &shared, first, second)?;
    let core = shared.close(passes);
    text.extend(history_text(alloc, core.history(), false)?.as_slice())?;
    Ok(text)
}
