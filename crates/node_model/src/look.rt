ghost use Rattle.std.specs.Prelude.{◌≡◌, IfOk};

use crate::key::Key;
use crate::slot::Slot;
use cil_base::{NoMemory, Token};
use std::alloc::Global;

/// What is seen of a key.
#[derive(Drop)]
pub enum Look {
    /// What the key holds.
    Slot(Slot),
    /// Its row was removed.
    Removed(Token),
    /// There is no such row.
    Absent(Token),
}

impl Look {
    /// An equal look of its own.
    pub fn copy(&self, alloc: Global) -> Result<Look, NoMemory>
        ensures { IfOk result (λ copy. copy ≡ self.now) }
    {
        match self {
            Look::Slot(slot) => Ok(Look::Slot(slot.copy(alloc)?)),
            Look::Removed(token) => Ok(Look::Removed(*token)),
            Look::Absent(token) => Ok(Look::Absent(*token)),
        }
    }
}

/// The graph of an image after edits, each of which is done after those before it.
pub trait Graph {
    ghost use Rattle.std.specs.Prelude.{ℕ, List, true};
    ghost use Rattle.node_model.specs.EditAnswers.{all_done};
    ghost use Rattle.node_model.specs.Graph.{graph_of, untouched};
    ghost use Rattle.node_model.specs.KeyKinds.{has_kind};
    ghost use Rattle.node_model.specs.Look.{look};
    ghost use Rattle.node_model.specs.declared.edit.Edit.{Edit};

    ghost bytes: { Self → List ℕ };

    ghost edits: { Self → List Edit };

    /// What is seen of a key: what it holds, or that its row is absent or was removed. Asks for a key of a kind that
    /// its row's table has. Each of the edits is done.
    fn look(&self, alloc: Global, key: &Key) -> Result<Look, NoMemory>
        requires { has_kind key.now ≡ true }
        ensures seen { IfOk result (λ seen. seen ≡ look (graph_of (bytes self.now) (edits self.now)) key.now) }
        ensures done { all_done (untouched (bytes self.now)) (edits self.now) ≡ true };
}
