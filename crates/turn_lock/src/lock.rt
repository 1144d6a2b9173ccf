//! The lock: four words and one slot on a table.
use crate::chronicle::Chronicle;
use crate::idle_seat::IdleSeat;
use crate::view::{Owned, View};
use std::marker::Model;

/// The next ticket, modulo 2^64.
pub(crate) const TICKET: usize = 0;

/// The ticket that is served, modulo 2^64.
pub(crate) const SERVING: usize = 1;

/// How many entries were counted.
pub(crate) const COUNT: usize = 2;

/// How many numbers were drawn for callers.
pub(crate) const CALLER_NUMBER: usize = 3;

/// The slot of the state, which is None while a caller has its turn.
pub(crate) const STATE: usize = 0;

/// A state that is handed to one caller at a time, in the order of their tickets. Threads may share it.
#[derive(Drop)]
pub struct TurnLock<S: Chronicle> {
    pub(crate) table: Owned<S>,
    pub(crate) maker: IdleSeat<Option<S>, View<S::Base, S::Entry>>,
}

impl<S: Chronicle> Model for TurnLock<S> {
    ghost use Rattle.std.specs.Prelude.{◌≡◌, [], Some};
    ghost use Rattle.turn_lock.specs.Views.{maker_seat};
    ghost use Rattle.turn_lock.specs.Passes.{LockValue};

    ghost Value = { LockValue S.Base };

    ghost view = { λ l. record { id = l.table.shared.table_id; callers = l.maker.seat.me.0.next; base = S.base l.table.shared.key.value } };

    ghost invariant = { λ l.
        (l.table.shared.table_id.words ≡ 4)
        × (l.table.shared.table_id.slots ≡ 1)
        × (l.maker.seat.table_id ≡ l.table.shared.table_id)
        × (l.maker.seat.me ≡ (maker_seat (Some (S.base l.table.shared.key.value)) l.maker.seat.me.0.next [] [] [], [])) };
}
