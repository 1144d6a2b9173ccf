//! The state, while a caller has its turn.
ghost use Rattle.std.specs.Prelude.{◌≡◌};
ghost use Rattle.std.specs.Borrow.{Lends, sem};
ghost use Rattle.turn_lock.specs.contracts.held.Held.{the_row};

use crate::chronicle::Chronicle;
use crate::view::Place;
use std::marker::Model;

/// The state that a caller holds while it has its turn, with its pass.
#[derive(Drop)]
pub struct Held<S: Chronicle> {
    pub(crate) place: Place<S>,
    pub(crate) number: u32,
    pub(crate) seen: u64,
    pub(crate) state: S,
}

impl<S: Chronicle> Model for Held<S> {
    ghost use Rattle.std.specs.Prelude.{◌≡◌, [], ◌∷◌, length, get_or, None};
    ghost use Rattle.turn_lock.specs.Views.{turning};
    ghost use Rattle.turn_lock.specs.Passes.{HeldValue};

    ghost Value = { HeldValue S S.Base S.Entry };

    ghost view = { λ h. record { lock = h.place.table_id; number = h.number; base = h.place.me.0.base; seen = h.place.me.0.seen; state = h.state } };

    ghost invariant = { λ h. (h.seen ≡ length h.place.me.0.seen) × (h.place.me ≡ (turning h.place.me.0.base h.number (get_or h.place.me.0.tickets 0 0) h.place.me.0.seen, (0, None) ∷ [])) };
}

impl<S: Chronicle> Held<S> {
    /// The state, lent to be read.
    pub fn state(&self) -> &S
        ensures { result.now ≡ self.now.state }
    {
        &self.state
    }

    /// The state, lent to be changed. What is written is the state of the turn.
    pub fn state_mut(&mut self) -> &mut S
        ensures value { result.now ≡ self.old.state }
        ensures* writes_back { sem 𝓛 (Lends (the_row S.row S.Base.row S.Entry.row S.Chronicle) S.row self.entry result (λ x. record self.old { state = x })) }
    {
        &mut self.state
    }
}
