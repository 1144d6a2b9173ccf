ghost use Rattle.std.specs.Prelude.{◌≡◌, IfOk};

use cil_base::{List, NoMemory, Token};
use node_model::{EditRefusal, Key};

/// What is answered to an edit.
#[derive(Drop)]
pub enum Applied {
    /// It is done; with the token of the row that it made, if it made one.
    Done(Option<Token>),
    /// It is refused, and nothing changed.
    Refused(EditRefusal),
    /// The keys that it looks at, in order, up to the first that has no slot, which is the last of them. Nothing
    /// changed.
    Need(List<Key>),
}

impl Applied {
    /// An equal answer of its own.
    pub fn copy(&self) -> Result<Applied, NoMemory>
        ensures { IfOk result (λ copy. copy ≡ self.now) }
    {
        match self {
            Applied::Done(made) => Ok(Applied::Done(*made)),
            Applied::Refused(refusal) => Ok(Applied::Refused(*refusal)),
            Applied::Need(keys) => Ok(Applied::Need(keys.copy()?)),
        }
    }
}

/// What is answered to an edit at last.
#[derive(Clone, Copy)]
pub enum Outcome {
    /// It is done; with the token of the row that it made, if it made one.
    Done(Option<Token>),
    /// It is refused, and nothing changed.
    Refused(EditRefusal),
}
