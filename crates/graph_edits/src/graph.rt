ghost use Rattle.std.specs.Prelude.{◌≡◌, ◌<◌, ◌-◌, ◌^◌};
ghost use Rattle.node_model.specs.Nodes.{next_row, nodes_there};
ghost use Rattle.graph_edits.specs.Graphs.{nodes_in};

use cil_base::{List, Token};
use node_model::{Key, RowsThere, Slot};
use slot_store::Slots;

/// An edited graph in memory: the slots that are filled, the rows of the image by table, how many were added to each
/// table, and which were removed.
#[derive(Drop)]
pub struct EditGraph {
    pub slots: Slots<Key, Slot>,
    pub rows: [u32; 64],
    pub added: [u32; 64],
    pub removed: List<Token>,
}

impl EditGraph {
    /// The rows that there are.
    pub(crate) fn rows_there(&self) -> RowsThere<'_>
        ensures { nodes_there result ≡ nodes_in self.now }
    {
        RowsThere {
            rows: &self.rows,
            added: &self.added,
            removed: &self.removed,
        }
    }

    /// The token that a new row of a table gets, which has room for it.
    pub(crate) fn next_row(&self, table: u8) -> Token
        requires { (nodes_in self.now).rows table < 2 ^ 24 - 1 }
        ensures { result ≡ next_row (nodes_in self.now) table }
    {
        self.rows_there().next_row(table)
    }
}
