ghost use Rattle.std.specs.Prelude.{◌≡◌, true};
ghost use Rattle.std.specs.Option.{option_copied};
ghost use Rattle.sig_tree.specs.Replaced.{names_type};
ghost use Rattle.write_plan.specs.Planned.{PlanMade, kept_value};
ghost use Rattle.write_plan.specs.Seen.{seen_in};
ghost use Rattle.write_plan.specs.Written.{new_token, token_renumbered, rows_in};

use crate::kept::Kept;
use crate::kept_rows::KeptRows;
use crate::met::MetRows;
use crate::numbered::NumberedRows;
use crate::refusal::WriteRefusal;
use crate::refused::refuse;
use crate::sorted::{new_token, token_renumbered};
use crate::walk::walk;
use crate::writing::written_lists;
use cil_base::{List, Token};
use indexmap::IndexMap;
use node_model::{Graph, Key, Value};
use std::alloc::Global;
use std::marker::Model;

/// What is to be written of an edited graph: the rows that are kept, in the order in which they are written, and what
/// the keys of the walk hold, with their tokens as they were.
#[derive(Drop)]
pub struct Plan {
    lists: List<NumberedRows>,
    values: IndexMap<Key, Value>,
}

impl Model for Plan {
    ghost use Rattle.std.specs.Prelude.{◌≡◌, length};
    ghost use Rattle.std.specs.Coded.{codes};
    ghost use Rattle.sig_tree.specs.contracts.tree.TypeSig as types;
    ghost use Rattle.write_plan.specs.Planned.{Planned};

    ghost Value = { Planned };

    ghost coded = { Prim.hlevel (codes, types.the_row.coded) };

    ghost view = { λ p. record { lists = p.lists; entries = p.values.entries } };

    ghost invariant = { λ p. length p.lists ≡ 256 };
}

impl Plan {
    /// Walks over a graph and plans how it is written: Facts first, then table by table the lists of its rows and what
    /// each kept row holds. A row that was removed is not kept. `Reached`, `NotPureIl`, `Twice`, `Dangling`, `TooMany`
    /// and `Unfit` come exactly where they are the first refusal of the graph, in this order.
    pub fn make<G: Graph>(alloc: Global, graph: &G) -> Result<Plan, WriteRefusal>
        ensures { PlanMade (seen_in (G.bytes graph.now) (G.edits graph.now)) result }
    {
        let mut kept = Kept::new(alloc);
        let mut met = MetRows::new(alloc);
        walk(alloc, graph, &mut kept, &mut met)?;
        let all = met.all.copy()?;
        let rows = KeptRows::of(alloc, all)?;
        refuse(alloc, &kept, &met, &rows)?;
        let lists = written_lists(alloc, &kept, &rows)?;
        let Kept { values, .. } = kept;
        Ok(Plan { lists, values })
    }

    /// The token of a row by its new number: its place in its table's list, counted from 1. `None` exactly where the
    /// row is not kept. Takes no memory.
    pub fn renumber(&self, token: Token) -> Option<Token>
        ensures { result ≡ token_renumbered self.now.lists token }
    {
        token_renumbered(&self.lists, token)
    }

    /// The rows of a table that are kept, in the order in which they are written. Takes no memory.
    pub fn kept(&self, table: u8) -> &List<Token>
        ensures { result.now ≡ rows_in self.now.lists table }
    {
        self.lists.as_slice()[table as usize].rows()
    }

    /// What a key of the walk holds. `None` exactly where the key is none of the walk. Takes no memory.
    pub fn value(&self, key: &Key) -> Option<&Value>
        ensures { option_copied result ≡ kept_value self.now.entries key.now }
    {
        self.values.get(key)
    }

    /// The token of a row by its new number; any other token as it is.
    pub(crate) fn new_token(&self, token: Token) -> Token
        ensures token { result ≡ new_token self.now.lists token }
        ensures types { names_type token ≡ true → names_type result ≡ true }
    {
        let new = new_token(&self.lists, token);
        let _rid = new.rid;
        new
    }
}
