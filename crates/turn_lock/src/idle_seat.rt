//! A seat of a table, put where no shared reference can step with it.
ghost use Rattle.std.specs.Prelude.{◌≡◌};
ghost use base.Fml.{ftrue};

use atomic_table::Seat;
use std::marker::Model;

/// A seat that lies in a value which threads share. A seat itself is not `Sync`, since a step with it changes it;
/// here a shared reference gives no way to it, and it comes out only with the whole value.
pub struct IdleSeat<S, V> {
    seat: Seat<S, V>,
}

impl<S, V> Model for IdleSeat<S, V> {
    ghost also_owns = { λ _. ftrue };
}

impl<S, V> IdleSeat<S, V> {
    /// Puts the seat away.
    pub(crate) fn new(seat: Seat<S, V>) -> IdleSeat<S, V>
        ensures { result.seat ≡ seat }
    {
        IdleSeat { seat }
    }

    /// Takes the seat out.
    pub(crate) fn into_seat(self) -> Seat<S, V>
        ensures { result ≡ self.seat }
    {
        let IdleSeat { seat } = self;
        seat
    }
}

impl<S, V> Drop for IdleSeat<S, V> {
    fn drop(self) {
        drop(self.into_seat());
    }
}

unsafe impl<S: Send, V> Send for IdleSeat<S, V> {}

unsafe impl<S: Send, V> Sync for IdleSeat<S, V> {}
