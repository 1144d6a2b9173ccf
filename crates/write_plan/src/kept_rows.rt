ghost use Rattle.std.specs.Prelude.{◌≡◌, ◌<◌, ◌++◌, ◌∷◌, [], get_or, length, replicate, set, IfOk, OnOk};
ghost use Rattle.write_plan.specs.GraphWalk.{rows_of_table};
ghost use Rattle.write_plan.specs.inner.Tables.{IsSplit};

use cil_base::{List, NoMemory, Token};
use std::alloc::Global;
use std::marker::Model;

/// The numbers that a table can have: it is a byte.
pub(crate) const TABLES: usize = 256;

/// Rows in order, and beside them those of each table. Contracts see the rows.
#[derive(Drop)]
pub(crate) struct KeptRows {
    all: List<Token>,
    tables: Vec<List<Token>>,
}

impl Model for KeptRows {
    ghost use Rattle.std.specs.Prelude.{List};
    ghost use Rattle.cil_base.specs.Token.{Token};
    ghost use Rattle.write_plan.specs.inner.Tables.{IsSplit};

    ghost Value = { List Token };

    ghost view = { λ r. r.all };

    ghost invariant = { λ r. IsSplit r.all r.tables.items };
}

/// An empty list for each number of a table.
fn no_rows(alloc: Global) -> Result<Vec<List<Token>>, NoMemory>
    ensures { IfOk result (λ tables. tables.items ≡ replicate 256 []) }
{
    let mut tables = Vec::new(alloc);
    for _table in 0..TABLES {
        tables.push(List::new(alloc))?;
    }
    Ok(tables)
}

/// Adds a row to the list of its table.
fn push_to(tables: &mut Vec<List<Token>>, token: Token) -> Result<(), NoMemory>
    requires { length tables.old.items ≡ 256 }
    ensures small { OnOk result (token.table < 256) }
    ensures rows { OnOk result (tables.new.items
        ≡ set tables.old.items token.table (get_or tables.old.items token.table [] ++ token ∷ [])) }
{
    let rows = &mut tables[token.table as usize];
    rows.push(token)
}

/// The rows of each table.
fn split(alloc: Global, all: &[Token]) -> Result<Vec<List<Token>>, NoMemory>
    ensures { IfOk result (λ tables. IsSplit all.now tables.items) }
{
    let mut tables = no_rows(alloc)?;
    for token in all {
        push_to(&mut tables, *token)?;
    }
    Ok(tables)
}

impl KeptRows {
    /// These rows.
    pub fn of(alloc: Global, all: List<Token>) -> Result<KeptRows, NoMemory>
        ensures { IfOk result (λ rows. rows ≡ all) }
    {
        let tables = split(alloc, all.as_slice())?;
        Ok(KeptRows { all, tables })
    }

    /// The rows of a table.
    pub fn of_table(&self, table: u8) -> &List<Token>
        ensures { result.now ≡ rows_of_table table self.now }
    {
        &self.tables[table as usize]
    }
}
