ghost use Rattle.std.specs.Prelude.{◌≡◌, ◌<◌, ◌^◌, [], suc, length, IfOk, ℕ};
ghost use Rattle.std.specs.List.{IsDistinct, position};
ghost use Rattle.std.specs.Option.{option_map};
ghost use Rattle.node_model.specs.Keys.{same_token};

use cil_base::{List, NoMemory, Token};
use indexmap::IndexSet;
use std::alloc::Global;
use std::marker::Model;

/// The rows of a table in the order in which they are written, and beside them their places. Contracts see the rows.
#[derive(Drop)]
pub(crate) struct NumberedRows {
    rows: List<Token>,
    places: IndexSet<Token>,
}

impl Model for NumberedRows {
    ghost use Rattle.std.specs.Prelude.{◌≡◌, ◌<◌, ◌^◌, List, length};
    ghost use Rattle.cil_base.specs.Token.{Token};

    ghost Value = { List Token };

    ghost view = { λ r. r.rows };

    ghost invariant = { λ r. (r.places.keys ≡ r.rows) × (length r.rows < 2 ^ 24) };
}

/// The set of these rows, in order.
fn places_of(alloc: Global, rows: &[Token]) -> Result<IndexSet<Token>, NoMemory>
    requires { IsDistinct same_token rows.now }
    ensures { IfOk result (λ places. places.keys ≡ rows.now) }
{
    let mut places = IndexSet::new(alloc);
    for row in rows {
        places.insert(*row)?;
    }
    Ok(places)
}

impl NumberedRows {
    /// No rows.
    pub fn none(alloc: Global) -> NumberedRows
        ensures { result ≡ [] }
    {
        NumberedRows {
            rows: List::new(alloc),
            places: IndexSet::new(alloc),
        }
    }

    /// These rows.
    pub fn of(alloc: Global, rows: List<Token>) -> Result<NumberedRows, NoMemory>
        requires distinct { IsDistinct same_token rows }
        requires few { length rows < 2 ^ 24 }
        ensures { IfOk result (λ numbered. numbered ≡ rows) }
    {
        let places = places_of(alloc, rows.as_slice())?;
        Ok(NumberedRows { rows, places })
    }

    /// The rows.
    pub fn rows(&self) -> &List<Token>
        ensures { result.now ≡ self.now }
    {
        &self.rows
    }

    /// The token of a row by its new number. `None` exactly where it is none of the rows.
    pub fn token_renumbered(&self, token: Token) -> Option<Token>
        ensures { result ≡ option_map (λ (place : ℕ). record { table = token.table; rid = suc place })
            (position (same_token token) self.now) }
    {
        let _len = self.places.len();
        let place = self.places.get_index_of(&token)?;
        Some(Token {
            table: token.table,
            rid: place as u32 + 1,
        })
    }
}
