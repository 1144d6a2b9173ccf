ghost use Rattle.std.specs.Prelude.{◌≡◌, IfOk};

use cil_base::{List, NoMemory, Token};
use node_model::{By, EditRefusal, Key, Why};
use std::alloc::Global;

/// A key that was wanted and not filled: by whom, at how many entries of the history, for what, and which.
#[derive(Drop)]
pub struct Wanted {
    pub by: By,
    pub point: u64,
    pub why: Why,
    pub key: Key,
}

/// What a core says to an edit.
#[derive(Drop)]
pub enum Tried {
    /// It is done; with the token of the row that it made, if it made one.
    Done(Option<Token>),
    /// It is refused, and nothing changed.
    Refused(EditRefusal),
    /// The keys that it looks at, in order, up to the first that is not filled, which is the last of them. Nothing
    /// changed.
    Need(List<Key>),
}

/// What a core did with a slot.
#[derive(Clone, Copy, PartialEq, Eq)]
pub enum Published {
    /// The key is filled with it now.
    Stored,
    /// The key was filled already, and nothing changed.
    Already,
}

impl Wanted {
    /// An equal want of its own.
    pub fn copy(&self, alloc: Global) -> Result<Wanted, NoMemory>
        ensures { IfOk result (λ copy. copy ≡ self.now) }
    {
        let why = self.why.copy(alloc)?;
        Ok(Wanted {
            by: self.by,
            point: self.point,
            why,
            key: self.key,
        })
    }
}

impl Tried {
    /// An equal answer of its own.
    pub fn copy(&self) -> Result<Tried, NoMemory>
        ensures { IfOk result (λ copy. copy ≡ self.now) }
    {
        match self {
            Tried::Done(made) => Ok(Tried::Done(*made)),
            Tried::Refused(refusal) => Ok(Tried::Refused(*refusal)),
            Tried::Need(keys) => Ok(Tried::Need(keys.copy()?)),
        }
    }
}
