ghost use Rattle.std.specs.Prelude.{◌≡◌, ◌<◌, ◌+◌, ◌^◌, IsSome};
ghost use Rattle.md_schema.specs.Entry.{column_of, start_column_of};
ghost use Rattle.md_schema.specs.Cell.{IsRowOf};
ghost use Rattle.md_schema.specs.Layout.{OpensTables};
ghost use Rattle.md_schema.specs.Runs.{run_between, run_end, run_of};

use crate::tables::Tables;
use cil_base::Token;
use md_schema::start_column;

impl Tables {
    /// Returns the run of rows of `table` that the row `owner` owns, from its first row to before its second number: from
    /// the row's own start to the next row's, and of the last row to the table's end. Equal numbers are the empty run,
    /// whatever they are; else `None` comes exactly where the numbers do not rise within the table's rows (ECMA-335
    /// II.22.37). Asks for the stream that was opened, and for a row whose table owns the rows of `table`.
    #[tactic(auto, unfolding(md_schema::specs::Runs::run_of))]
    pub fn range(&self, stream: &[u8], owner: Token, table: u8) -> Option<(u32, u32)>
        requires opened { OpensTables stream.now self.now }
        requires row { IsRowOf self.now owner.table owner.rid }
        requires owned { IsSome (start_column_of owner.table table) }
        ensures { result ≡ run_of stream.now owner table }
    {
        let Some(column) = start_column(owner.table, table) else {
            unreachable!()
        };
        let start = self.cell(stream, owner.table, owner.rid, column);
        let end = self.run_end(stream, owner.table, owner.rid, table, column);
        as_run(start, end, self.rows(table))
    }

    /// Returns where the run of the row after this one begins.
    fn run_end(&self, stream: &[u8], owner: u8, rid: u32, table: u8, column: u8) -> u32
        requires opened { OpensTables stream.now self.now }
        requires row { IsRowOf self.now owner rid }
        requires column { IsSome (column_of owner column) }
        ensures { result ≡ run_end stream.now (record { table = owner; rid = rid }) table column }
    {
        if rid == self.rows(owner) {
            self.rows(table) + 1
        } else {
            self.cell(stream, owner, rid + 1, column)
        }
    }
}

/// Returns the run from one number to before the other, where the table's rows have it.
fn as_run(start: u32, end: u32, rows: u32) -> Option<(u32, u32)>
    requires { rows < 2 ^ 24 }
    ensures { result ≡ run_between rows start end }
{
    if start == end || 1 <= start && start < end && end <= rows + 1 {
        Some((start, end))
    } else {
        None
    }
}
