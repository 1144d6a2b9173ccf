//! Edits of callers.
ghost use Rattle.std.specs.Prelude.{◌≡◌, IfOk, Ok, Some, is_some, length, true};
ghost use Rattle.turn_lock.specs.Passes.{IsPassOf};
ghost use Rattle.lazy_core.specs.Steps.{last_key};
ghost use Rattle.shared_module.specs.Adds.{AddsFills, IsForEdit, by_of};
ghost use Rattle.shared_module.specs.Answers.{EndsWithDone, IsEdited, before_done};
ghost use Rattle.shared_module.specs.inner.Turns.{EditEnds, EditRound};

use crate::decoder::{Decoder, tell_answered};
use crate::shared::{Pass, SharedModule};
use cil_base::{List, NoMemory};
use graph_edits::Outcome;
use lazy_core::{Tried, Wanted};
use node_model::{By, Edit, Key, Why};
use std::alloc::Global;
use std::sync::Wait;

/// What is answered to an edit.
#[derive(Clone, Copy)]
pub struct Edited {
    /// A point of the history, as a number of entries: where the edit is done that of its own entry, and where it is
    /// refused one at which it is.
    pub at: u64,
    /// Whether it is done, or why not.
    pub outcome: Outcome,
}

/// What is wanted of the last of the keys that an edit needs at a point. There is one.
fn wanted_last(by: By, point: u64, keys: List<Key>) -> Wanted
    requires { is_some (last_key keys) ≡ true }
    ensures last { last_key keys ≡ Some result.key }
    ensures wanted { result ≡ record { by = by; point = point; why = Why.Keys keys; key = result.key } }
{
    let Some(last) = keys.as_slice().last() else {
        unreachable!()
    };
    let key = *last;
    Wanted {
        by,
        point,
        why: Why::Keys(keys),
        key,
    }
}

/// The outcome of an edit, told with all that the pass has seen.
fn answered(pass: Pass, outcome: Outcome) -> (Pass, Result<Option<Edited>, NoMemory>)
    ensures { result ≡ (pass, Ok (Some (record { at = length pass.seen; outcome = outcome }))) }
{
    let at = pass.seen();
    (pass, Ok(Some(Edited { at, outcome })))
}

impl SharedModule {
    /// Tries an edit once, and fills the last of the keys that are needed, if some are. No answer yet where some were.
    fn edit_round<R: Wait, G: Decoder>(
        &self,
        rt: &R,
        alloc: Global,
        pass: Pass,
        by: By,
        edit: &Edit,
        gate: &G,
    ) -> (Pass, Result<Option<Edited>, NoMemory>)
        requires pass { IsPassOf self.now pass }
        requires by { by.caller ≡ pass.number }
        ensures pass { IsPassOf self.now result.0 × (result.0.number ≡ pass.number) }
        ensures edited { EditRound self.now.base by edit.now pass.seen result.0.seen result.1 }
    {
        let (first, said) = self.try_turn(rt, alloc, pass, by, edit);
        match said {
            Ok(Tried::Done(made)) => answered(first, Outcome::Done(made)),
            Ok(Tried::Refused(refusal)) => answered(first, Outcome::Refused(refusal)),
            Ok(Tried::Need(keys)) => {
                let wanted = wanted_last(by, first.seen(), keys);
                let (back, done) = self.fill(rt, alloc, first, wanted, gate);
                match done {
                    Ok(()) => (back, Ok(None)),
                    Err(NoMemory) => (back, Err(NoMemory)),
                }
            }
            Err(NoMemory) => (first, Err(NoMemory)),
        }
    }

    /// Tries an edit until it is answered, or there is no memory.
    fn edit_rounds<R: Wait, G: Decoder>(
        &self,
        rt: &R,
        alloc: Global,
        pass: Pass,
        by: By,
        edit: &Edit,
        gate: &G,
    ) -> (Pass, Result<Edited, NoMemory>)
        requires pass { IsPassOf self.now pass }
        requires by { by.caller ≡ pass.number }
        ensures pass { IsPassOf self.now result.0 × (result.0.number ≡ pass.number) }
        ensures edited { EditEnds self.now.base by edit.now pass.seen result.0.seen result.1 }
    {
        let mut own = pass;
        for _ in rt.forever() {
            let (back, said) = self.edit_round(rt, alloc, own, by, edit, gate);
            match said {
                Ok(Some(edited)) => return (back, Ok(edited)),
                Ok(None) => own = back,
                Err(NoMemory) => return (back, Err(NoMemory)),
            }
        }
        unreachable!()
    }

    /// Makes an edit, as step 0 of a command. Each key that it needs and that is not filled is decoded between two
    /// turns and filled. The pass comes back; what it had seen it has still seen, and what the caller added to it are
    /// fills for this edit, also where memory is wanting, and the entry of the edit where it is done, which is the last
    /// that the pass has seen then. An edit is answered as the entries before its own call for, and a refused one as
    /// all that the pass has seen; what it looks at is filled there. It may wait for other callers.
    pub fn edit<R: Wait, G: Decoder>(
        &self,
        rt: &R,
        alloc: Global,
        pass: Pass,
        command: u32,
        edit: &Edit,
        gate: &G,
    ) -> (Pass, Result<Edited, NoMemory>)
        requires { IsPassOf self.now pass }
        ensures pass { IsPassOf self.now result.0 × (result.0.number ≡ pass.number) }
        ensures adds { AddsFills (by_of pass.number command 0) (IsForEdit self.now.base edit.now) pass.seen
            (before_done result.0.seen result.1) }
        ensures done { EndsWithDone (by_of pass.number command 0) edit.now result.0.seen result.1 }
        ensures answer { IfOk result.1 (IsEdited self.now.base edit.now result.0.seen) }
    {
        let caller = pass.number();
        let by = By {
            caller,
            command,
            step: 0,
        };
        let (back, edited) = self.edit_rounds(rt, alloc, pass, by, edit, gate);
        tell_answered(gate, by, edited.is_ok());
        (back, edited)
    }
}
