//! The lists of all tables, each in the order in which it is written.

ghost use Rattle.std.specs.Prelude.{◌≡◌, ◌<◌, ◌^◌, [], ℕ, length, replicate, IfOk};
ghost use Rattle.std.specs.List.{IsDistinct};
ghost use Rattle.node_model.specs.Keys.{same_token};
ghost use Rattle.write_plan.specs.GraphWalk.{rows_of_table};
ghost use Rattle.write_plan.specs.Written.{written_lists};
ghost use Rattle.write_plan.specs.inner.Taken.{value_kept};

use crate::kept::Kept;
use crate::kept_rows::{KeptRows, TABLES};
use crate::numbered::NumberedRows;
use crate::order::walk_order;
use crate::sorted::in_link_order;
use cil_base::{List, NoMemory};
use std::alloc::Global;

/// An empty list for each number of a table.
fn no_lists(alloc: Global) -> Result<List<NumberedRows>, NoMemory>
    ensures { IfOk result (λ lists. lists ≡ replicate 256 []) }
{
    let mut lists = List::new(alloc);
    for _table in 0..TABLES {
        lists.push(NumberedRows::none(alloc))?;
    }
    Ok(lists)
}

/// The lists of all tables. A table stands in the walk behind those that its link column names.
#[tactic(auto, unfolding(crate::specs::Written::written_lists))]
pub(crate) fn written_lists(
    alloc: Global,
    kept: &Kept,
    rows: &KeptRows,
) -> Result<List<NumberedRows>, NoMemory>
    requires distinct { IsDistinct same_token rows.now }
    requires few { (table : ℕ) → table < 64 → length (rows_of_table table rows.now) < 2 ^ 24 }
    ensures lists { IfOk result (λ lists. lists ≡ written_lists (value_kept kept.now) rows.now) }
    ensures count { IfOk result (λ lists. length lists ≡ 256) }
{
    let mut lists = no_lists(alloc)?;
    for table in walk_order() {
        let ordered = in_link_order(alloc, kept, &lists, *table, rows.of_table(*table))?;
        let numbered = NumberedRows::of(alloc, ordered)?;
        lists.set(*table as usize, numbered);
    }
    Ok(lists)
}
