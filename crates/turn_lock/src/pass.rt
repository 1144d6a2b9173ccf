//! What a caller keeps between two turns.
ghost use Rattle.std.specs.Prelude.{◌≡◌, length};

use crate::chronicle::Chronicle;
use crate::view::Place;
use std::marker::Model;

/// A caller's pass: the right to take turns under one number, and the knowledge of the entries that it has seen.
#[derive(Drop)]
pub struct Pass<S: Chronicle> {
    pub(crate) place: Place<S>,
    pub(crate) number: u32,
    pub(crate) seen: u64,
}

impl<S: Chronicle> Model for Pass<S> {
    ghost use Rattle.std.specs.Prelude.{◌≡◌, [], length};
    ghost use Rattle.turn_lock.specs.Views.{idle};
    ghost use Rattle.turn_lock.specs.Passes.{PassValue};

    ghost Value = { PassValue S.Base S.Entry };

    ghost view = { λ p. record { lock = p.place.table_id; number = p.number; base = p.place.me.0.base; seen = p.place.me.0.seen } };

    ghost invariant = { λ p. (p.seen ≡ length p.place.me.0.seen) × (p.place.me ≡ (idle p.place.me.0.base p.number p.place.me.0.seen, [])) };
}

impl<S: Chronicle> Pass<S> {
    /// The caller's number, from 0 on.
    pub fn number(&self) -> u32
        ensures { result ≡ self.now.number }
    {
        self.number
    }

    /// How many entries this pass has seen.
    pub fn seen(&self) -> u64
        ensures { result ≡ length self.now.seen }
    {
        self.seen
    }
}
