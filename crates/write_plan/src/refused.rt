//! The refusals that are tried after the walk, in order.

ghost use Rattle.std.specs.Prelude.{◌≡◌, slice_get};
ghost use Rattle.std.specs.List.{range_with_len};
ghost use Rattle.std.specs.Option.{option_map};
ghost use Rattle.node_model.specs.EditRefusals.{first_made};
ghost use Rattle.write_plan.specs.Refusals.{Refuses, ends_empty, later_refusal, too_many};
ghost use Rattle.write_plan.specs.declared.refusal.WriteRefusal.TheVariants.{Twice};
ghost use Rattle.write_plan.specs.inner.Taken.{IsMet, value_kept, walked_so};

use crate::dangling::{refuse_dangling, refuse_impure};
use crate::held::list_members;
use crate::kept::Kept;
use crate::kept_rows::KeptRows;
use crate::met::MetRows;
use crate::refusal::WriteRefusal;
use crate::unfit::refuse_unfit;
use cil_base::MAX_RID;
use md_schema::owner;
use node_model::Key;
use std::alloc::Global;

/// The rows of a table of which the start of an empty run at the end would not fit into a column of two bytes: that
/// start is one more than they are.
const NO_ROOM_FOR_START: usize = 0xffff;

/// Refuses a row that was met a second time.
fn refuse_twice(met: &MetRows) -> Result<(), WriteRefusal>
    ensures { Refuses (option_map Twice (slice_get met.now.again 0)) result }
{
    match met.again.as_slice().first() {
        Some(token) => Err(WriteRefusal::Twice(*token)),
        None => Ok(()),
    }
}

/// Whether the last owner of rows of the table has none.
fn ends_empty(kept: &Kept, rows: &KeptRows, table: u8) -> bool
    ensures { result ≡ ends_empty (value_kept kept.now) rows.now table }
{
    let Some(owner) = owner(table) else {
        return false;
    };
    match rows.of_table(owner).as_slice().last() {
        Some(last) => list_members(kept.value(&Key::Owned(*last, table))).is_empty(),
        None => false,
    }
}

/// Refuses a table of too many rows.
fn refuse_too_many_of(kept: &Kept, rows: &KeptRows, table: u8) -> Result<(), WriteRefusal>
    ensures { Refuses (too_many (value_kept kept.now) rows.now table) result }
{
    let count = rows.of_table(table).len();
    if count > MAX_RID as usize || (count == NO_ROOM_FOR_START && ends_empty(kept, rows, table)) {
        return Err(WriteRefusal::TooMany(table, count as u64));
    }
    Ok(())
}

/// Refuses the lowest table of too many rows.
fn refuse_too_many(kept: &Kept, rows: &KeptRows) -> Result<(), WriteRefusal>
    ensures { Refuses (first_made (too_many (value_kept kept.now) rows.now) (range_with_len 0 64)) result }
{
    for table in 0..64 {
        if let Err(refusal) = refuse_too_many_of(kept, rows, table) {
            return Err(refusal);
        }
    }
    Ok(())
}

/// Refuses what was walked over, by the first refusal after `Reached`.
#[tactic(auto, unfolding(crate::specs::Refusals::later_refusal))]
pub(crate) fn refuse(
    alloc: Global,
    kept: &Kept,
    met: &MetRows,
    rows: &KeptRows,
) -> Result<(), WriteRefusal>
    requires met { IsMet met.now }
    requires rows { rows.now ≡ met.now.all }
    ensures { Refuses (later_refusal (value_kept kept.now) (walked_so kept.now met.now)) result }
{
    if let Err(refusal) = refuse_impure(kept) {
        return Err(refusal);
    }
    if let Err(refusal) = refuse_twice(met) {
        return Err(refusal);
    }
    if let Err(refusal) = refuse_dangling(alloc, kept, met) {
        return Err(refusal);
    }
    if let Err(refusal) = refuse_too_many(kept, rows) {
        return Err(refusal);
    }
    refuse_unfit(kept, rows)
}
