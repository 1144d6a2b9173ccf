ghost use Rattle.std.specs.Prelude.{◌≡◌, ◌-◌, ◌<◌, ◌^◌, slice_index};
ghost use Rattle.std.specs.List.{list_any};
ghost use Rattle.node_model.specs.Keys.{same_token};
ghost use Rattle.node_model.specs.Look.{key_status};
ghost use Rattle.node_model.specs.Nodes.{is_absent_row, is_live_row, is_removed_row, next_row, nodes_there, row_status};

use crate::key::Key;
use cil_base::{List, Token};

/// Whether a token names a row.
#[derive(Clone, Copy, PartialEq, Eq)]
pub enum RowStatus {
    /// It names none, as the root does.
    Absent,
    /// The row was removed.
    Removed,
    /// The row is there.
    Live,
}

/// The rows that there are in an edited graph. Rows that were removed are counted too.
#[derive(Clone, Copy)]
pub struct RowsThere<'a> {
    /// How many rows the image has, by table.
    pub rows: &'a [u32; 64],
    /// How many rows were added, by table.
    pub added: &'a [u32; 64],
    /// Which rows were removed.
    pub removed: &'a List<Token>,
}

/// The number at a table's place. 0 where there is none.
fn number_of_table(numbers: &[u32; 64], table: u8) -> u32
    ensures { result ≡ slice_index numbers.now table }
{
    if table < 64 {
        numbers[table as usize]
    } else {
        0
    }
}

/// Whether a token is among these.
fn is_among(tokens: &[Token], token: Token) -> bool
    ensures { result ≡ list_any (same_token token) tokens.now }
{
    tokens.iter().any(|other| token.table == other.table && token.rid == other.rid)
}

impl RowsThere<'_> {
    /// How many rows a table has, those that were added and those that were removed counted. 0 from table 64 on.
    pub fn count(&self, table: u8) -> u64
        ensures { result ≡ (nodes_there self.now).rows table }
    {
        u64::from(number_of_table(self.rows, table)) + u64::from(number_of_table(self.added, table))
    }

    /// Whether the token names a row.
    pub fn status(&self, token: Token) -> RowStatus
        ensures { result ≡ row_status (nodes_there self.now) token }
    {
        if token.rid == 0 || u64::from(token.rid) > self.count(token.table) {
            return RowStatus::Absent;
        }
        if is_among(self.removed.as_slice(), token) {
            return RowStatus::Removed;
        }
        RowStatus::Live
    }

    /// Whether the token names no row. The root does not.
    pub fn is_absent(&self, token: Token) -> bool
        ensures { result ≡ is_absent_row (nodes_there self.now) token }
    {
        matches!(self.status(token), RowStatus::Absent)
    }

    /// Whether the token names a row that was removed.
    pub fn is_removed(&self, token: Token) -> bool
        ensures { result ≡ is_removed_row (nodes_there self.now) token }
    {
        matches!(self.status(token), RowStatus::Removed)
    }

    /// Whether the token names a row that is there.
    pub fn is_live(&self, token: Token) -> bool
        ensures { result ≡ is_live_row (nodes_there self.now) token }
    {
        matches!(self.status(token), RowStatus::Live)
    }

    /// Whether the row of the key is there. The root's keys are.
    pub fn key_status(&self, key: &Key) -> RowStatus
        ensures { result ≡ key_status (nodes_there self.now) key.now }
    {
        if key.is_of_root() {
            return RowStatus::Live;
        }
        self.status(key.token())
    }

    /// The token that a new row of the table gets: the next after all rows that the table ever had. Asks for a table
    /// that has fewer than 2^24 - 1.
    pub fn next_row(&self, table: u8) -> Token
        requires { (nodes_there self.now).rows table < 2 ^ 24 - 1 }
        ensures { result ≡ next_row (nodes_there self.now) table }
    {
        Token {
            table,
            rid: (self.count(table) + 1) as u32,
        }
    }
}
