//! Where the runs of rows start that the rows of a table own (ECMA-335 II.22).

ghost use Rattle.std.specs.Prelude.{◌≡◌, ◌+◌, IfOk};
ghost use Rattle.write_tables.specs.WrittenRows.{run_length, run_starts};

use crate::heap::narrowed;
use cil_base::{List, NoMemory, Token};
use node_model::{Key, Value};
use std::alloc::Global;
use write_plan::Plan;

/// How many rows of a table a row owns.
fn run_length(plan: &Plan, owned: u8, owner: Token) -> usize
    ensures { result ≡ run_length plan.now owned owner }
{
    match plan.value(&Key::Owned(owner, owned)) {
        Some(Value::Tokens(tokens)) => tokens.len(),
        _ => 0,
    }
}

/// The number of the row so many rows after this one.
fn start_after(start: u32, count: usize) -> Result<u32, NoMemory>
    ensures { IfOk result (λ next. next ≡ start + count) }
{
    let Some(next) = (count as u64).checked_add(start as u64) else {
        return Err(NoMemory);
    };
    let narrow = narrowed(next)?;
    Ok(narrow)
}

/// Where the runs of the rows of a table start: each at the row after all runs before it.
pub(crate) fn run_starts(
    alloc: Global,
    plan: &Plan,
    table: u8,
    owned: u8,
) -> Result<List<u32>, NoMemory>
    ensures { IfOk result (λ starts. starts ≡ run_starts plan.now table owned) }
{
    let mut starts = List::new(alloc);
    let mut start = 1;
    let rows = plan.kept(table);
    let owners = rows.as_slice();
    for owner in owners {
        starts.push(start)?;
        let next = start_after(start, run_length(plan, owned, *owner))?;
        start = next;
    }
    Ok(starts)
}
