//! Single turns of a caller, each with one step of the core, and what is done between two of them.
ghost use Rattle.std.specs.Prelude.{◌≡◌, IfOk, OnErr, OnOk};
ghost use Rattle.turn_lock.specs.Passes.{IsPassOf};
ghost use Rattle.node_model.specs.Immediate.{read};
ghost use Rattle.lazy_core.specs.Legal.{WasWanted};
ghost use Rattle.lazy_core.specs.Steps.{history_after, peeked};
ghost use Rattle.shared_module.specs.Adds.{Adds};
ghost use Rattle.shared_module.specs.inner.Turns.{AddsNothing, IsFillOf, TryTurn};

use crate::decoder::Decoder;
use crate::shared::{Pass, SharedModule};
use cil_base::NoMemory;
use lazy_core::{Core, Peek, Tried, Wanted};
use node_model::{By, Edit, Query, Slot};
use std::alloc::Global;
use std::sync::Wait;

/// Takes the memory that a fill needs, and fills what was wanted, unless it is filled by now. `NoMemory` adds no entry.
fn fill_wanted(core: &mut Core, wanted: Wanted, slot: Slot) -> Result<(), NoMemory>
    requires wanted { WasWanted core.old.bytes core.old.history wanted.point wanted.why wanted.key }
    requires slot { slot ≡ read core.old.bytes wanted.key }
    ensures history { OnOk result (core.new.history ≡ history_after core.old.bytes core.old.history wanted) }
    ensures kept { OnErr result (core.new.history ≡ core.old.history) }
    ensures image { core.new.bytes ≡ core.old.bytes }
{
    core.make_room()?;
    core.publish(wanted, slot);
    Ok(())
}

impl SharedModule {
    /// A turn in which a query is asked.
    pub(crate) fn peek_turn<R: Wait>(
        &self,
        rt: &R,
        alloc: Global,
        pass: Pass,
        query: &Query,
    ) -> (Pass, Result<Peek, NoMemory>)
        requires { IsPassOf self.now pass }
        ensures pass { IsPassOf self.now result.0 × (result.0.number ≡ pass.number) }
        ensures adds { AddsNothing pass.number pass.seen result.0.seen }
        ensures said { IfOk result.1 (λ said. said ≡ peeked self.now.base result.0.seen query.now) }
    {
        let held = self.lock.enter(rt, pass);
        let said = held.state().peek(alloc, query);
        (self.lock.leave(held), said)
    }

    /// A turn in which an edit is tried.
    pub(crate) fn try_turn<R: Wait>(
        &self,
        rt: &R,
        alloc: Global,
        pass: Pass,
        by: By,
        edit: &Edit,
    ) -> (Pass, Result<Tried, NoMemory>)
        requires pass { IsPassOf self.now pass }
        requires by { by.caller ≡ pass.number }
        ensures pass { IsPassOf self.now result.0 × (result.0.number ≡ pass.number) }
        ensures tried { TryTurn self.now.base by edit.now pass.seen result.0.seen result.1 }
    {
        let mut held = self.lock.enter(rt, pass);
        let said = held.state_mut().try_edit(alloc, by, edit);
        (self.lock.leave(held), said)
    }

    /// A turn in which a key is filled that was wanted, unless it is filled by now.
    fn publish_turn<R: Wait>(
        &self,
        rt: &R,
        pass: Pass,
        wanted: Wanted,
        slot: Slot,
    ) -> (Pass, Result<(), NoMemory>)
        requires pass { IsPassOf self.now pass }
        requires by { wanted.by.caller ≡ pass.number }
        requires wanted { WasWanted self.now.base pass.seen wanted.point wanted.why wanted.key }
        requires slot { slot ≡ read self.now.base wanted.key }
        ensures pass { IsPassOf self.now result.0 × (result.0.number ≡ pass.number) }
        ensures adds { Adds pass.number (IsFillOf wanted pass.seen) pass.seen result.0.seen }
    {
        let mut held = self.lock.enter(rt, pass);
        let done = fill_wanted(held.state_mut(), wanted, slot);
        (self.lock.leave(held), done)
    }

    /// Decodes what was wanted, with no turn, and fills it.
    pub(crate) fn fill<R: Wait, G: Decoder>(
        &self,
        rt: &R,
        alloc: Global,
        pass: Pass,
        wanted: Wanted,
        gate: &G,
    ) -> (Pass, Result<(), NoMemory>)
        requires pass { IsPassOf self.now pass }
        requires by { wanted.by.caller ≡ pass.number }
        requires wanted { WasWanted self.now.base pass.seen wanted.point wanted.why wanted.key }
        ensures pass { IsPassOf self.now result.0 × (result.0.number ≡ pass.number) }
        ensures adds { Adds pass.number (IsFillOf wanted pass.seen) pass.seen result.0.seen }
    {
        let By {
            caller,
            command,
            ..
        } = wanted.by;
        match gate.slot(alloc, caller, command, &self.image, &wanted.key) {
            Ok(slot) => self.publish_turn(rt, pass, wanted, slot),
            Err(NoMemory) => (pass, Err(NoMemory)),
        }
    }
}
