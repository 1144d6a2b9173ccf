//! The steps on the table, by what each tells its caller.
ghost use Rattle.std.specs.Prelude.{List, []};
ghost use Rattle.turn_lock.specs.Steps.{DrawsNumber, DrawsTicket, LooksAtServing, CountsEntry, PassesOn, maker_left, new_seat, joined_by};
ghost use Rattle.turn_lock.specs.Views.{spent};

use crate::chronicle::Chronicle;
use crate::view::View;
use atomic_table::{Join, Play, Split};
use std::marker::{Brand, PhantomData};

/// The maker draws a number, which it has then to give.
pub(crate) struct DrawNumber;

impl<S, B, E> Play<Option<S>, View<B, E>> for DrawNumber {
    ghost then = { λ _. DrawsNumber };
}

/// The maker gives its drawn number to a new seat.
pub(crate) struct GiveNumber;

impl<B, E> Split<View<B, E>> for GiveNumber {
    ghost left = { maker_left };

    ghost right = { new_seat };
}

/// A seat draws a ticket.
pub(crate) struct DrawTicket;

impl<S, B, E> Play<Option<S>, View<B, E>> for DrawTicket {
    ghost then = { λ _. DrawsTicket };
}

/// A seat that waits looks at the number that is served.
pub(crate) struct LookAtServing;

impl<S: Chronicle> Play<Option<S>, View<S::Base, S::Entry>> for LookAtServing {
    ghost then = { λ _. LooksAtServing S.base S.entries S.caller };
}

/// The entries of the state that is out, of which a seat counts one. A step reads no argument, so the call picks them.
pub(crate) trait Listing<E> {
    ghost list: { List E };
}

impl<E> Listing<E> for Brand {
    ghost list = { [] };
}

/// A seat with the turn counts one entry of the list.
pub(crate) struct CountEntry<L> {
    listing: PhantomData<L>,
}

impl<S, B, E, L: Listing<E>> Play<Option<S>, View<B, E>> for CountEntry<L> {
    ghost then = { λ _. CountsEntry L.list };
}

/// A seat gives the slot back, and gives up its ticket and the turn.
pub(crate) struct PassOn;

impl<S, B, E> Play<Option<S>, View<B, E>> for PassOn {
    ghost then = { λ _. PassesOn };
}

/// A seat without a ticket goes back into the maker.
pub(crate) struct JoinSeat;

impl<B, E> Join<View<B, E>> for JoinSeat {
    ghost both = { joined_by };

    ghost spent = { spent };
}
