ghost use Rattle.std.specs.Prelude.{◌≡◌, find};
ghost use Rattle.node_model.specs.Nodes.{is_live_row, nodes_there};
ghost use Rattle.node_model.specs.Questions.{early_reply};
ghost use Rattle.node_model.specs.RowNames.{is_member};
ghost use Rattle.graph_query.specs.Answered.{nodes_asked};

use crate::early::early_reply;
use cil_base::{List, Token};
use node_model::{Key, Query, Reply, RowsThere, Slot};
use slot_store::Slots;

/// An edited graph in memory, lent to be asked: the slots that are filled, the rows of the image by table, how many were
/// added to each table, and which were removed.
#[derive(Clone, Copy)]
pub struct QueryGraph<'a> {
    pub slots: &'a Slots<Key, Slot>,
    pub rows: [u32; 64],
    pub added: [u32; 64],
    pub removed: &'a List<Token>,
    /// How many keys were filled.
    pub fills: u64,
}

impl QueryGraph<'_> {
    /// The rows that there are.
    pub(crate) fn rows_there(&self) -> RowsThere<'_>
        ensures { nodes_there result ≡ nodes_asked self.now }
    {
        RowsThere {
            rows: &self.rows,
            added: &self.added,
            removed: self.removed,
        }
    }

    /// Whether the token names a row that was not removed.
    pub(crate) fn is_live(&self, token: Token) -> bool
        ensures { result ≡ is_live_row (nodes_asked self.now) token }
    {
        self.rows_there().is_live(token)
    }

    /// Whether the token names a row of the table that was not removed.
    pub(crate) fn is_member(&self, table: u8, token: Token) -> bool
        ensures { result ≡ is_member (nodes_asked self.now) table token }
    {
        self.is_live(token) && token.table == table
    }

    /// What is said to a query before any key is looked at.
    pub(crate) fn early_reply(&self, query: &Query) -> Option<Reply>
        ensures { result ≡ early_reply (nodes_asked self.now) query.now }
    {
        early_reply(&self.rows_there(), query)
    }

    /// The first of these that names a row of the table that was not removed.
    pub(crate) fn first_member(&self, table: u8, tokens: &[Token]) -> Option<Token>
        ensures { result ≡ find (is_member (nodes_asked self.now) table) tokens.now }
    {
        tokens
            .iter()
            .copied()
            .find(|token| self.is_member(table, *token))
    }
}
