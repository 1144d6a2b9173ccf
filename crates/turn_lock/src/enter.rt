//! How a caller gets its turn.
ghost use Rattle.std.specs.Prelude.{◌≡◌, IfSome};
ghost use mathlib.Core.List.{IsPrefix};
ghost use Rattle.turn_lock.specs.Views.{own};
ghost use Rattle.turn_lock.specs.Passes.{IsPassOf, IsHeldOf};
ghost use Rattle.turn_lock.specs.Steps.{Finds};
ghost use Rattle.turn_lock.specs.Seats.{Waits};

use crate::chronicle::Chronicle;
use crate::held::Held;
use crate::lock::{SERVING, STATE, TICKET, TurnLock};
use crate::pass::Pass;
use crate::plays::{DrawTicket, LookAtServing};
use crate::view::{Board, Place};
use std::sync::Wait;
use std::thread;

impl<S: Chronicle> TurnLock<S> {
    /// Draws a ticket, waits until it is served, and hands out the state. It may wait for another caller.
    ///
    /// The entries of the state begin with all that the pass had seen, and those of the pass's number are just those
    /// that it had seen.
    pub fn enter<R: Wait>(&self, rt: &R, pass: Pass<S>) -> Held<S>
        requires { IsPassOf self.now pass }
        ensures pass { IsHeldOf self.now result × (result.number ≡ pass.number) }
        ensures base { S.base result.state ≡ self.now.base }
        ensures seen { result.seen ≡ S.entries result.state }
        ensures later { IsPrefix pass.seen (S.entries result.state) }
        ensures own { own S.caller pass.number (S.entries result.state) ≡ own S.caller pass.number pass.seen }
    {
        let Pass {
            mut place,
            number,
            seen: _,
        } = pass;
        let board = &self.table.shared;
        let ticket = board.fetch_add::<DrawTicket>(&mut place, TICKET, 1);
        await_turn(rt, board, &mut place, ticket);
        let state = board.exchange(&mut place, STATE, None).unwrap();
        let seen = state.count();
        Held {
            place,
            number,
            seen,
            state,
        }
    }
}

// Looks at the ticket that is served until it is the seat's, of which `ticket` is the low 64 bits.
fn await_turn<S: Chronicle, R: Wait>(rt: &R, board: &Board<S>, place: &mut Place<S>, ticket: u64)
    requires board { (place.old.table_id ≡ board.now.table_id) × (board.now.table_id.words ≡ 4) }
    requires waits { Waits place.old.me ticket }
    ensures board { place.new.table_id ≡ place.old.table_id }
    ensures turn { (x : S) × Finds S.base S.entries S.caller place.old.me x place.new.me }
{
    for _ in rt.forever() {
        if board.load::<LookAtServing>(place, SERVING) == ticket {
            return;
        }
        thread::yield_now();
    }
    unreachable!()
}
