ghost use Rattle.std.specs.Prelude.{◌≡◌, [], false, true, None, OnOk};
ghost use Rattle.std.specs.List.{list_any};
ghost use Rattle.node_model.specs.Keys.{same_token};
ghost use Rattle.write_plan.specs.GraphWalk.{met_one};
ghost use Rattle.write_plan.specs.Refusals.{Refuses};
ghost use Rattle.write_plan.specs.inner.Taken.{IsMet, met_rows};

use crate::refusal::WriteRefusal;
use cil_base::{List, NoMemory, Token};
use indexmap::IndexSet;
use std::alloc::Global;

/// The rows that a walk met: all that it keeps, each once and in order, and beside them a set in which they are looked
/// up; those of the table that it is at; and those that it met once more.
#[derive(Drop)]
pub(crate) struct MetRows {
    pub seen: IndexSet<Token>,
    pub all: List<Token>,
    pub rows: List<Token>,
    pub again: List<Token>,
}

impl MetRows {
    /// No rows.
    pub(crate) fn new(alloc: Global) -> MetRows
        ensures met { IsMet result }
        ensures rows { met_rows result ≡ record { all = []; rows = []; again = [] } }
    {
        MetRows {
            seen: IndexSet::new(alloc),
            all: List::new(alloc),
            rows: List::new(alloc),
            again: List::new(alloc),
        }
    }

    /// Whether a row is kept.
    pub(crate) fn has(&self, token: Token) -> bool
        requires { IsMet self.now }
        ensures { result ≡ list_any (same_token token) self.now.all }
    {
        self.seen.contains(&token)
    }

    /// Begins with another table.
    pub(crate) fn begin(&mut self, alloc: Global)
        requires { IsMet self.old }
        ensures met { IsMet self.new }
        ensures rows { met_rows self.new ≡ record { all = self.old.all; rows = []; again = self.old.again } }
    {
        self.rows = List::new(alloc);
    }

    /// Keeps a row that is new.
    pub(crate) fn meet_new(&mut self, token: Token) -> Result<(), NoMemory>
        requires met { IsMet self.old }
        requires new { list_any (same_token token) self.old.all ≡ false }
        ensures met { OnOk result (IsMet self.new) }
        ensures rows { OnOk result (met_rows self.new ≡ met_one (met_rows self.old) token) }
    {
        self.all.push(token)?;
        self.rows.push(token)?;
        self.seen.insert(token)?;
        Ok(())
    }

    /// Notes a row that is met once more.
    pub(crate) fn meet_again(&mut self, token: Token) -> Result<(), WriteRefusal>
        requires met { IsMet self.old }
        requires known { list_any (same_token token) self.old.all ≡ true }
        ensures met { OnOk result (IsMet self.new) }
        ensures rows { OnOk result (met_rows self.new ≡ met_one (met_rows self.old) token) }
        ensures refused { Refuses None result }
    {
        self.again.push(token)?;
        Ok(())
    }
}
