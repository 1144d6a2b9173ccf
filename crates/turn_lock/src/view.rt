//! What a seat of the lock's table knows, and the rule of the table.
use crate::chronicle::Chronicle;
use atomic_table::{Seat, Shared, Table, TableRule};
use std::alloc::Global;
use std::collections::LinkedList;
use std::snapshot::Snapshot;

/// What a seat knows. It stands in proofs alone: no value of it is made.
pub struct View<B, E> {
    /// The base of the state, in every view but the spent one of a joined seat.
    pub base: Option<B>,
    /// True for the one seat that stays in the lock.
    pub is_maker: bool,
    /// The maker's: the caller number, as many numbers as were drawn.
    pub next: u64,
    /// The maker's: the number that was drawn and has still to be given to a seat.
    pub to_give: LinkedList<u64>,
    /// The maker's: the number of each joined seat, with all that it had seen.
    pub joined: LinkedList<(u64, LinkedList<E>)>,
    /// The seat's own number, if it has one.
    pub numbers: LinkedList<u64>,
    /// The ticket that the seat has drawn and not yet given up.
    pub tickets: LinkedList<u64>,
    /// True while the seat holds the slot.
    pub has_turn: bool,
    /// The entries that the seat has seen, from the first on.
    pub seen: LinkedList<E>,
}

/// The rule of the lock.
pub struct TurnRule;

impl<S: Chronicle> TableRule<Option<S>, View<S::Base, S::Entry>, Snapshot<S>> for TurnRule {
    ghost use Rattle.std.specs.Prelude.{[], Some};
    ghost use Rattle.turn_lock.specs.Rule.{Kept};
    ghost use Rattle.turn_lock.specs.Views.{maker_seat};

    ghost holds = { λ key. Kept S.base S.entries S.caller (S.base key.value) };

    ghost first = { λ key. maker_seat (Some (S.base key.value)) 0 [] [] [] };
}

pub(crate) type Place<S> = Seat<Option<S>, View<<S as Chronicle>::Base, <S as Chronicle>::Entry>>;

pub(crate) type Board<S> = Shared<
    Option<S>,
    View<<S as Chronicle>::Base, <S as Chronicle>::Entry>,
    Snapshot<S>,
    TurnRule,
>;

pub(crate) type Owned<S> = Table<
    Option<S>,
    View<<S as Chronicle>::Base, <S as Chronicle>::Entry>,
    Snapshot<S>,
    TurnRule,
    Global,
>;
