ghost use Rattle.std.specs.Prelude.{◌≡◌, ◌++◌, ◌∷◌, [], OnErr, OnOk};

use crate::wanted::Wanted;
use cil_base::{List, NoMemory};
use std::alloc::Global;
use std::marker::Model;

/// What each step left wanted, in the order of the steps. Contracts see the list.
#[derive(Drop)]
pub(crate) struct Wants {
    wants: List<Option<Wanted>>,
}

impl Model for Wants {
    ghost use Rattle.std.specs.Prelude.{List, Option};
    ghost use Rattle.lazy_core.specs.declared.wanted.Wanted.{Wanted};

    ghost Value = { List (Option Wanted) };

    ghost view = { λ w. w.wants };
}

impl Wants {
    /// None.
    pub(crate) fn new(alloc: Global) -> Wants
        ensures { result ≡ [] }
    {
        Wants {
            wants: List::new(alloc),
        }
    }

    /// One of each step.
    pub(crate) fn as_slice(&self) -> &[Option<Wanted>]
        ensures { result.now ≡ self.now }
    {
        self.wants.as_slice()
    }

    /// Puts in what the next step left wanted. `NoMemory` changes nothing.
    pub(crate) fn push(&mut self, want: Option<Wanted>) -> Result<(), NoMemory>
        ensures ok { OnOk result (self.new ≡ self.old ++ want ∷ []) }
        ensures err { OnErr result (self.new ≡ self.old) }
    {
        self.wants.push(want)
    }
}
