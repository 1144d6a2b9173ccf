//! How a caller gives its turn up.
ghost use Rattle.std.specs.Prelude.{◌≡◌, ◌+◌, ◌<◌, ◌≤◌, length, take, slice_get, Some};
ghost use mathlib.Core.List.{IsPrefix};
ghost use Rattle.turn_lock.specs.Passes.{IsHeldOf, MadeBy};
ghost use Rattle.turn_lock.specs.Seats.{HoldsEmpty};

use crate::chronicle::Chronicle;
use crate::held::Held;
use crate::lock::{COUNT, SERVING, STATE, TurnLock};
use crate::pass::Pass;
use crate::plays::{CountEntry, Listing, PassOn};
use crate::view::{Board, Place};
use std::marker::Brand;

impl<S: Chronicle> TurnLock<S> {
    /// Counts the entries that the turn has added, puts the state back and passes the turn on.
    ///
    /// The state has its old base, its entries begin with those that `enter` found, and each further entry has the
    /// pass's number. The pass has then seen all entries.
    pub fn leave(&self, held: Held<S>) -> Pass<S>
        requires held { IsHeldOf self.now held }
        requires base { S.base held.state ≡ self.now.base }
        requires later { IsPrefix held.seen (S.entries held.state) }
        requires own { MadeBy S.caller held.number (length held.seen) (S.entries held.state) }
        ensures { result ≡ record { lock = held.lock; number = held.number; base = held.base; seen = S.entries held.state } }
    {
        let Held {
            mut place,
            number,
            seen,
            state,
        } = held;
        let board = &self.table.shared;
        let all = count_new_entries(board, &mut place, number, seen, &state);
        board.exchange(&mut place, STATE, Some(state));
        board.fetch_add::<PassOn>(&mut place, SERVING, 1);
        Pass {
            place,
            number,
            seen: all,
        }
    }
}

// Counts each entry of the state from the place `seen` on, and answers how many there are in all.
fn count_new_entries<S: Chronicle>(
    board: &Board<S>,
    place: &mut Place<S>,
    number: u32,
    seen: u64,
    state: &S,
) -> u64
    requires board { (place.old.table_id ≡ board.now.table_id) × (board.now.table_id.words ≡ 4) }
    requires seat { HoldsEmpty place.old.me number (take seen (S.entries state.now)) }
    requires new { (seen ≤ length (S.entries state.now)) × MadeBy S.caller number seen (S.entries state.now) }
    ensures board { place.new.table_id ≡ place.old.table_id }
    ensures seat { HoldsEmpty place.new.me number (S.entries state.now) × (place.new.me.0.base ≡ place.old.me.0.base) }
    ensures all { result ≡ length (S.entries state.now) }
{
    let all = state.count();
    for _i in seen..all {
        count_entry::<S, Brand>(board, place, number, state);
    }
    all
}

// Counts the next entry of the state.
fn count_entry<S: Chronicle, L: Listing<S::Entry>>(
    board: &Board<S>,
    place: &mut Place<S>,
    number: u32,
    state: &S,
)
    requires board { (place.old.table_id ≡ board.now.table_id) × (board.now.table_id.words ≡ 4) }
    requires list { L.list ≡ S.entries state.now }
    requires seat { HoldsEmpty place.old.me number (take (length place.old.me.0.seen) (S.entries state.now)) }
    requires new { (length place.old.me.0.seen < length (S.entries state.now)) × MadeBy S.caller number (length place.old.me.0.seen) (S.entries state.now) }
    ensures board { place.new.table_id ≡ place.old.table_id }
    ensures seat { place.new.me ≡ (record place.old.me.0 { seen = take (length place.old.me.0.seen + 1) (S.entries state.now) }, place.old.me.1) }
{
    let _all = state.count();
    board.fetch_add::<CountEntry<L>>(place, COUNT, 1);
}
