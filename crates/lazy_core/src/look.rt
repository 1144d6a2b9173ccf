//! What is seen of the graph after a core's history.
ghost use Rattle.std.specs.Prelude.{◌≡◌, IfOk};

use crate::lazy::Core;
use cil_base::NoMemory;
use node_model::{Graph, Key, Look, RowStatus};
use std::alloc::Global;

impl Graph for Core {
    ghost use Rattle.lazy_core.specs.History.{edits};

    ghost bytes = { λ c. c.bytes };

    ghost edits = { λ c. edits c.history };

    fn look(&self, alloc: Global, key: &Key) -> Result<Look, NoMemory> {
        match self.rows_there().key_status(key) {
            RowStatus::Absent => Ok(Look::Absent(key.token())),
            RowStatus::Removed => Ok(Look::Removed(key.token())),
            RowStatus::Live => Ok(Look::Slot(self.held(alloc, key)?)),
        }
    }
}
