//! How a lock ends.
ghost use Rattle.std.specs.Prelude.{◌≡◌, ◌<◌, ◌∷◌, [], All, Any};
ghost use mathlib.Core.List.{IsPrefix};
ghost use Rattle.turn_lock.specs.Views.{own};
ghost use Rattle.turn_lock.specs.Passes.{AreAllOf};
ghost use Rattle.turn_lock.specs.Joined.{HasEach, HasJoined, Settled, marks};

use crate::chronicle::Chronicle;
use crate::lock::{STATE, TurnLock};
use crate::pass::Pass;
use crate::plays::JoinSeat;
use crate::view::{Board, Owned, Place};
use cil_base::List;

impl<S: Chronicle> TurnLock<S> {
    /// Takes all passes back, and gives the state.
    ///
    /// What each pass has seen begins the entries of the state; those of a pass's number are just those that it has
    /// seen, and each entry is of one of the passes.
    pub fn close(self, passes: List<Pass<S>>) -> S
        requires { AreAllOf self passes }
        ensures base { S.base result ≡ self.base }
        ensures seen { All (λ p. IsPrefix p.seen (S.entries result)) passes }
        ensures own { All (λ p. own S.caller p.number (S.entries result) ≡ own S.caller p.number p.seen) passes }
        ensures callers { All (λ e. S.caller e < self.callers) (S.entries result) }
        ensures made { All (λ e. Any (λ p. p.number ≡ S.caller e) passes) (S.entries result) }
    {
        let TurnLock { table, maker } = self;
        let mut maker = maker.into_seat();
        join_all(&table.shared, &mut maker, passes);
        take_state(table, maker)
    }
}

// Joins the seats of all passes.
fn join_all<S: Chronicle>(board: &Board<S>, maker: &mut Place<S>, mut passes: List<Pass<S>>)
    requires board { (maker.old.table_id ≡ board.now.table_id) × (board.now.table_id.words ≡ 4) }
    requires maker { HasJoined maker.old.me maker.old.me.0.next [] }
    requires passes { All (λ p. p.lock ≡ board.now.table_id) passes }
    ensures board { maker.new.table_id ≡ maker.old.table_id }
    ensures maker { HasJoined maker.new.me maker.old.me.0.next (marks passes) × (maker.new.me.0.base ≡ maker.old.me.0.base) }
{
    while let Some(pass) = passes.pop() {
        join_pass(board, maker, pass);
    }
}

// Joins the seat of a pass: the maker keeps its number, with all that it had seen.
fn join_pass<S: Chronicle>(board: &Board<S>, maker: &mut Place<S>, pass: Pass<S>)
    requires board { (maker.old.table_id ≡ board.now.table_id) × (board.now.table_id.words ≡ 4) }
    requires maker { HasJoined maker.old.me maker.old.me.0.next maker.old.me.0.joined }
    requires pass { pass.lock ≡ board.now.table_id }
    ensures board { maker.new.table_id ≡ maker.old.table_id }
    ensures maker { HasJoined maker.new.me maker.old.me.0.next ((pass.number, pass.seen) ∷ maker.old.me.0.joined) × (maker.new.me.0.base ≡ maker.old.me.0.base) }
{
    let Pass {
        place,
        number: _,
        seen: _,
    } = pass;
    board.join_seat::<JoinSeat>(maker, place);
}

// The state, once all seats are joined.
fn take_state<S: Chronicle>(table: Owned<S>, maker: Place<S>) -> S
    requires sizes { table.shared.table_id.slots ≡ 1 }
    requires seat { maker.table_id ≡ table.shared.table_id }
    requires maker { HasJoined maker.me maker.me.0.next maker.me.0.joined }
    requires all { HasEach maker.me.0.next maker.me.0.joined }
    ensures { Settled S.base S.entries S.caller (S.base table.shared.key.value) maker.me.0.next maker.me.0.joined result }
{
    let mut closed = table.close_with(maker);
    let state = closed.take(STATE);
    closed.free();
    state.unwrap()
}
