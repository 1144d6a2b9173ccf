//! What a core says to queries.
ghost use Rattle.std.specs.Prelude.{◌≡◌, ◌&&◌, IfOk, true};
ghost use Rattle.node_model.specs.EditAnswers.{all_done};
ghost use Rattle.node_model.specs.Graph.{untouched};
ghost use Rattle.node_model.specs.KeyKinds.{has_kind};
ghost use Rattle.node_model.specs.Keys.{is_key_there};
ghost use Rattle.node_model.specs.Nodes.{nodes_there};
ghost use Rattle.node_model.specs.declared.key.Key.{Key};
ghost use Rattle.graph_query.specs.Answered.{nodes_asked, slots_asked};
ghost use Rattle.lazy_core.specs.History.{edits, fills, graph_after};
ghost use Rattle.lazy_core.specs.Slots.{slot_after};
ghost use Rattle.lazy_core.specs.Steps.{peeked};

use crate::lazy::Core;
use cil_base::NoMemory;
use graph_query::{Peek, QueryGraph, answer};
use node_model::{Key, Query, RowsThere, Slot};
use node_read::read_key;
use std::alloc::Global;

impl Core {
    /// The rows that there are. The edits of the history are done.
    pub(crate) fn rows_there(&self) -> RowsThere<'_>
        ensures nodes { nodes_there result ≡ (graph_after self.now.bytes self.now.history).nodes }
        ensures done { all_done (untouched self.now.bytes) (edits self.now.history) ≡ true }
    {
        RowsThere {
            rows: &self.graph.rows,
            added: &self.graph.added,
            removed: &self.graph.removed,
        }
    }

    /// The graph, lent to be asked.
    fn asked(&self) -> QueryGraph<'_>
        ensures nodes { nodes_asked result ≡ (graph_after self.now.bytes self.now.history).nodes }
        ensures slots { (key : Key) → slots_asked result key ≡ slot_after self.now.bytes self.now.history key }
        ensures fills { result.fills ≡ fills self.now.history }
    {
        QueryGraph {
            slots: &self.graph.slots,
            rows: self.graph.rows,
            added: self.graph.added,
            removed: &self.graph.removed,
            fills: self.fills,
        }
    }

    /// What the core says to a query: `Need` with the first key that the query looks at and that is not filled, and
    /// `Ready` with the reply where there is none. Nothing changes.
    pub fn peek(&self, alloc: Global, query: &Query) -> Result<Peek, NoMemory>
        ensures { IfOk result (λ peek. peek ≡ peeked self.now.bytes self.now.history query.now) }
    {
        answer(alloc, &self.asked(), query)
    }

    /// What a key holds that is there, and whose table has its kind: its slot, or what the file says.
    pub(crate) fn held(&self, alloc: Global, key: &Key) -> Result<Slot, NoMemory>
        requires { (is_key_there (graph_after self.now.bytes self.now.history).nodes.rows key.now && has_kind key.now)
            ≡ true }
        ensures { IfOk result (λ slot. slot ≡ (graph_after self.now.bytes self.now.history).held key.now) }
    {
        match self.graph.slots.get(key) {
            Some(slot) => slot.copy(alloc),
            None => read_key(alloc, &self.image, key),
        }
    }
}
