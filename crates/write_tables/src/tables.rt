ghost use Rattle.std.specs.Prelude.{◌≡◌, length, IfOk};
ghost use Rattle.md_heaps.specs.LaidHeaps.{laid_heaps};
ghost use Rattle.write_plan.specs.Refusals.{Refuses};
ghost use Rattle.write_tables.specs.Contents.{written_entries};
ghost use Rattle.write_tables.specs.ReadBack.{HeapsReadBack};
ghost use Rattle.write_tables.specs.UserTokens.{string_tokens, too_large_users, too_many_users};
ghost use Rattle.write_tables.specs.WrittenRows.{written_rows};

use crate::placed::Placed;
use crate::rows::put_tables;
use crate::strings::put_strings;
use cil_base::List;
use md_heaps::{HeapBuilder, Heaps};
use std::alloc::Global;
use write_plan::{Plan, WriteRefusal};

/// What is written of the rows of a plan: the heaps, and the rows of each of 64 tables as numbers, one a column.
#[derive(Drop)]
pub struct WrittenTables {
    pub heaps: Heaps,
    pub rows: List<List<List<u32>>>,
}

/// The number by which #US counts among the tables, as in tokens (ECMA-335 III.1.9).
const USER_STRINGS: u8 = 0x70;

/// The bytes of #US that a token can count.
const MAX_USERS: usize = 1 << 24;

/// Refuses a #US heap of too many bytes.
fn refuse_users(users: &[u8]) -> Result<(), WriteRefusal>
    ensures { Refuses (too_large_users (length users.now)) result }
{
    if users.len() > MAX_USERS {
        return Err(WriteRefusal::TooMany(USER_STRINGS, users.len() as u64));
    }
    Ok(())
}

/// For each MethodDef row, in the order in which the rows are written, the tokens of its ldstr instructions, in order
/// (ECMA-335 III.4.16). `TooMany` of table 0x70 comes exactly where #US has more than 2^24 bytes, with their number.
pub fn user_tokens(alloc: Global, plan: &Plan) -> Result<List<List<u32>>, WriteRefusal>
    ensures tokens { IfOk result (λ tokens. tokens ≡ string_tokens plan.now) }
    ensures refused { Refuses (too_many_users plan.now) result }
{
    let mut builder = HeapBuilder::new(alloc)?;
    let tokens = put_strings(alloc, plan, &mut builder)?;
    let heaps = builder.finish()?;
    match refuse_users(heaps.users.as_slice()) {
        Ok(()) => Ok(tokens),
        Err(refusal) => Err(refusal),
    }
}

/// The heaps of a plan, and its rows as numbers, where what they lead to stands at these places. `TooMany` of table 0x70
/// comes exactly where #US has more than 2^24 bytes, with their number.
pub fn written_tables(
    alloc: Global,
    plan: &Plan,
    placed: &Placed,
) -> Result<WrittenTables, WriteRefusal>
    ensures heaps { IfOk result (λ tables. tables.heaps ≡ laid_heaps (written_entries plan.now)) }
    ensures rows { IfOk result (λ tables. tables.rows ≡ written_rows plan.now placed.now) }
    ensures reads { IfOk result (λ tables. HeapsReadBack (written_entries plan.now) tables.heaps) }
    ensures refused { Refuses (too_many_users plan.now) result }
{
    let mut builder = HeapBuilder::new(alloc)?;
    let rows = put_tables(alloc, plan, placed, &mut builder)?;
    put_strings(alloc, plan, &mut builder)?;
    let heaps = builder.finish()?;
    match refuse_users(heaps.users.as_slice()) {
        Ok(()) => Ok(WrittenTables { heaps, rows }),
        Err(refusal) => Err(refusal),
    }
}
