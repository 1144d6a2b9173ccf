//! Queries of callers.
ghost use Rattle.std.specs.Prelude.{◌≡◌, IfOk, IfSome};
ghost use Rattle.turn_lock.specs.Passes.{IsPassOf};
ghost use Rattle.shared_module.specs.Adds.{AddsFills, IsForQuery, by_of};
ghost use Rattle.shared_module.specs.Answers.{IsAnswer};

use crate::decoder::{Decoder, tell_answered};
use crate::shared::{Pass, SharedModule};
use cil_base::NoMemory;
use lazy_core::{Peek, Wanted};
use node_model::{By, Key, Query, Reply, Why};
use std::alloc::Global;
use std::sync::Wait;

/// What is answered to a query.
#[derive(Drop)]
pub struct Answer {
    /// The point of the history, as a number of entries, at which the reply is true.
    pub at: u64,
    /// The reply.
    pub reply: Reply,
}

impl Answer {
    /// An equal answer of its own.
    pub fn copy(&self, alloc: Global) -> Result<Answer, NoMemory>
        ensures { IfOk result (λ copy. copy ≡ self.now) }
    {
        let reply = self.reply.copy(alloc)?;
        Ok(Answer { at: self.at, reply })
    }
}

/// What is wanted of a key that a query needs at a point.
fn wanted_for(
    alloc: Global,
    by: By,
    point: u64,
    query: &Query,
    key: Key,
) -> Result<Wanted, NoMemory>
    ensures { IfOk result (λ w. w ≡ record { by = by; point = point; why = Why.Query query.now; key = key }) }
{
    let why = Why::Query(query.copy(alloc)?);
    Ok(Wanted {
        by,
        point,
        why,
        key,
    })
}

impl SharedModule {
    /// Asks once, and fills the key that is needed, if one is. No answer yet where one was.
    fn ask_round<R: Wait, G: Decoder>(
        &self,
        rt: &R,
        alloc: Global,
        pass: Pass,
        by: By,
        query: &Query,
        gate: &G,
    ) -> (Pass, Result<Option<Answer>, NoMemory>)
        requires pass { IsPassOf self.now pass }
        requires by { by.caller ≡ pass.number }
        ensures pass { IsPassOf self.now result.0 × (result.0.number ≡ pass.number) }
        ensures adds { AddsFills by (IsForQuery query.now) pass.seen result.0.seen }
        ensures answer { IfOk result.1 (λ o. IfSome o (IsAnswer self.now.base query.now result.0.seen)) }
    {
        let (first, said) = self.peek_turn(rt, alloc, pass, query);
        match said {
            Ok(Peek::Ready(reply)) => {
                let at = first.seen();
                (first, Ok(Some(Answer { at, reply })))
            }
            Ok(Peek::Need(key)) => match wanted_for(alloc, by, first.seen(), query, key) {
                Ok(wanted) => {
                    let (back, done) = self.fill(rt, alloc, first, wanted, gate);
                    match done {
                        Ok(()) => (back, Ok(None)),
                        Err(NoMemory) => (back, Err(NoMemory)),
                    }
                }
                Err(NoMemory) => (first, Err(NoMemory)),
            },
            Err(NoMemory) => (first, Err(NoMemory)),
        }
    }

    /// Asks until there is an answer, or no memory.
    fn ask_rounds<R: Wait, G: Decoder>(
        &self,
        rt: &R,
        alloc: Global,
        pass: Pass,
        by: By,
        query: &Query,
        gate: &G,
    ) -> (Pass, Result<Answer, NoMemory>)
        requires pass { IsPassOf self.now pass }
        requires by { by.caller ≡ pass.number }
        ensures pass { IsPassOf self.now result.0 × (result.0.number ≡ pass.number) }
        ensures adds { AddsFills by (IsForQuery query.now) pass.seen result.0.seen }
        ensures answer { IfOk result.1 (IsAnswer self.now.base query.now result.0.seen) }
    {
        let mut own = pass;
        for _ in rt.forever() {
            let (back, said) = self.ask_round(rt, alloc, own, by, query, gate);
            match said {
                Ok(Some(answer)) => return (back, Ok(answer)),
                Ok(None) => own = back,
                Err(NoMemory) => return (back, Err(NoMemory)),
            }
        }
        unreachable!()
    }

    /// Asks a query, as a step of a command. Each key that it needs and that is not filled is decoded between two turns
    /// and filled. The pass comes back; what it had seen it has still seen, and what the caller added to it are fills
    /// for this query, also where memory is wanting. The reply is that of all that the pass has seen then, of which
    /// `at` is the number, and what the query looks at is filled there. It may wait for other callers.
    pub fn ask<R: Wait, G: Decoder>(
        &self,
        rt: &R,
        alloc: Global,
        pass: Pass,
        command: u32,
        step: u64,
        query: &Query,
        gate: &G,
    ) -> (Pass, Result<Answer, NoMemory>)
        requires { IsPassOf self.now pass }
        ensures pass { IsPassOf self.now result.0 × (result.0.number ≡ pass.number) }
        ensures adds { AddsFills (by_of pass.number command step) (IsForQuery query.now) pass.seen result.0.seen }
        ensures answer { IfOk result.1 (IsAnswer self.now.base query.now result.0.seen) }
    {
        let caller = pass.number();
        let by = By {
            caller,
            command,
            step,
        };
        let (back, answer) = self.ask_rounds(rt, alloc, pass, by, query, gate);
        tell_answered(gate, by, answer.is_ok());
        (back, answer)
    }
}
