//! What is said to a query before any key is looked at.

ghost use Rattle.std.specs.Prelude.{◌≡◌};
ghost use Rattle.node_model.specs.Nodes.{nodes_there};
ghost use Rattle.node_model.specs.Questions.{early_reply, has_members, key_reply, row_reply, several_early, status_reply};

use crate::names::has_name;
use cil_base::Token;
use md_schema::table;
use node_model::{Key, Query, Reply, RowStatus, RowsThere, has_kind};

/// Of a row: that it is absent or was removed, or that its table has no such part.
fn status_reply(status: RowStatus, has_part: bool, token: Token) -> Option<Reply>
    ensures { result ≡ status_reply status has_part token }
{
    match status {
        RowStatus::Absent => Some(Reply::Absent(token)),
        RowStatus::Removed => Some(Reply::Removed(token)),
        RowStatus::Live => {
            if has_part {
                return None;
            }
            Some(Reply::WrongKind(token))
        }
    }
}

/// Of the row of a key; the root's keys are there.
fn key_reply(rows: &RowsThere, key: &Key) -> Option<Reply>
    ensures { result ≡ key_reply (nodes_there rows.now) key.now }
{
    status_reply(rows.key_status(key), has_kind(key), key.token())
}

/// Of a row; the root is none.
fn row_reply(rows: &RowsThere, has_part: bool, token: Token) -> Option<Reply>
    ensures { result ≡ row_reply (nodes_there rows.now) has_part token }
{
    status_reply(rows.status(token), has_part, token)
}

/// Whether rows of the one table, which own rows of the other, have members that are looked for by their names.
fn has_members(of: Token, table: u8) -> bool
    ensures { result ≡ has_members of table }
{
    (table == table::FIELD || table == table::METHOD_DEF) && has_kind(&Key::Owned(of, table))
}

/// Of a query that looks at no single key.
fn several_early(rows: &RowsThere, query: &Query) -> Option<Reply>
    ensures { result ≡ several_early (nodes_there rows.now) query.now }
{
    match query {
        Query::Name(token) => row_reply(rows, has_name(token.table), *token),
        Query::TypeInfo(token) => row_reply(rows, token.table == table::TYPE_DEF, *token),
        Query::Method(token) => row_reply(rows, token.table == table::METHOD_DEF, *token),
        Query::FindMember { of, table, .. } => row_reply(rows, has_members(*of, *table), *of),
        _ => None,
    }
}

/// What is said to a query before any key is looked at: `Absent`, `Removed` or `WrongKind` of its token, tried in this
/// order. `None` where keys are looked at.
#[tactic(auto, unfolding(node_model::specs::Questions::early_reply))]
pub fn early_reply(rows: &RowsThere, query: &Query) -> Option<Reply>
    ensures { result ≡ early_reply (nodes_there rows.now) query.now }
{
    match query.key() {
        Some(key) => key_reply(rows, &key),
        None => several_early(rows, query),
    }
}
