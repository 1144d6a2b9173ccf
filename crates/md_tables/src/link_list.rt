ghost use Rattle.std.specs.Prelude.{◌≡◌, ◌≤◌, ℕ, nat_le, nat_lt, true, false, length, IfOk};
ghost use Rattle.std.specs.List.Sorted.{IsNonDecreasing, IsPartitionPoint};

use crate::link_row::LinkRow;
use cil_base::NoMemory;
use std::alloc::Global;
use std::marker::Model;

/// The rows of one link's table, in rising order of the number in the link column, and rows of one number in row order.
#[derive(Drop)]
pub(crate) struct LinkList {
    numbers: Vec<u32>,
    rids: Vec<u32>,
}

impl Model for LinkList {
    ghost use Rattle.std.specs.Prelude.{◌≡◌, List, length};
    ghost use Rattle.std.specs.List.Sorted.{IsNonDecreasing};
    ghost use Rattle.md_tables.specs.LinkIndex.{rows_beside};
    ghost use Rattle.md_tables.specs.declared.link_row.LinkRow.{LinkRow};

    ghost Value = { List LinkRow };

    ghost view = { λ l. rows_beside l.numbers.items l.rids.items };

    ghost invariant = { λ l. (length l.rids.items ≡ length l.numbers.items) × IsNonDecreasing l.numbers.items };
}

impl LinkList {
    ghost use Rattle.md_tables.specs.LinkIndex.{rids_at};

    /// Orders the rows of a table. Rows of one number stay in their order.
    pub fn from_rows(alloc: Global, rows: Vec<LinkRow>) -> Result<LinkList, NoMemory>
        ensures { IfOk result (λ list. (number : ℕ) → rids_at list number ≡ rids_at rows.items number) }
    {
        let mut rows = rows;
        rows.sort_by_key(|row| row.number)?;
        let mut numbers = Vec::with_capacity(alloc, rows.len())?;
        let mut rids = Vec::with_capacity(alloc, rows.len())?;
        for row in &rows {
            numbers.push(row.number)?;
            rids.push(row.rid)?;
        }
        Ok(LinkList { numbers, rids })
    }

    /// Returns the row numbers of the rows that have this number.
    pub fn at(&self, number: u32) -> &[u32]
        ensures { result.now ≡ rids_at self.now number }
    {
        let start = below(self.numbers.as_slice(), number);
        let end = up_to(self.numbers.as_slice(), number);
        &self.rids.as_slice()[start..end]
    }
}

/// Returns how many of the rising numbers are less than this one.
fn below(numbers: &[u32], number: u32) -> usize
    requires { IsNonDecreasing numbers.now }
    ensures point { IsPartitionPoint (λ n. nat_lt n number ≡ true) (λ n. nat_lt n number ≡ false) numbers.now result }
    ensures within { result ≤ length numbers.now }
{
    numbers.partition_point(|other| *other < number)
}

/// Returns how many of the rising numbers are this one or less.
fn up_to(numbers: &[u32], number: u32) -> usize
    requires { IsNonDecreasing numbers.now }
    ensures point { IsPartitionPoint (λ n. nat_le n number ≡ true) (λ n. nat_le n number ≡ false) numbers.now result }
    ensures within { result ≤ length numbers.now }
{
    numbers.partition_point(|other| *other <= number)
}
