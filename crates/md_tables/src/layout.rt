ghost use Rattle.std.specs.Prelude.{ℕ, ◌≡◌, ◌<◌, ◌≤◌, ◌+◌, ◌*◌, ◌^◌, length};
ghost use Rattle.std.specs.List.{sum_by};
ghost use Rattle.md_schema.specs.Width.{rows_of, column_width_of};
ghost use Rattle.md_schema.specs.Layout.{first_place, table_row_width};
ghost use Rattle.md_tables.specs.inner.Opening.{IsLaidOut};

use md_schema::{Column, Counts, columns, width};

/// Where the rows of each table begin, how many bytes a row has, and where the last table ends.
#[derive(Drop)]
pub(crate) struct Layout {
    pub starts: [usize; 64],
    pub widths: [usize; 64],
    pub end: usize,
}

/// Returns the bytes of these columns together.
pub(crate) fn width_of_columns(columns: &[Column], counts: &Counts) -> usize
    requires { length columns.now ≤ 9 }
    ensures sum { result ≡ sum_by (λ column. column_width_of column.kind counts.now) columns.now }
    ensures few { result ≤ 4 * length columns.now }
{
    let mut total = 0;
    for column in columns {
        total += width(column.kind, counts) as usize;
    }
    total
}

/// Returns the bytes of a row of the table.
fn width_of_row(table: u8, counts: &Counts) -> usize
    ensures width { result ≡ table_row_width counts.now table }
    ensures few { result ≤ 36 }
{
    match columns(table) {
        Some(columns) => width_of_columns(columns, counts),
        None => 0,
    }
}

/// Returns where the tables stand, after a header with `present` counts.
pub(crate) fn lay_out(counts: &Counts, present: usize) -> Layout
    requires few { (table : ℕ) → table < 64 → rows_of counts.now table < 2 ^ 24 }
    requires present { present ≤ 64 }
    ensures laid { IsLaidOut (record { present = present; counts = counts.now }) result.starts result.widths }
    ensures end { result.end ≡ first_place (record { present = present; counts = counts.now }) 64 }
{
    let mut starts = [0; 64];
    let mut widths = [0; 64];
    let mut end = 24 + 4 * present;
    for table in 0..64 {
        let width = width_of_row(table, counts);
        starts[table as usize] = end;
        widths[table as usize] = width;
        end += counts.rows[table as usize] as usize * width;
    }
    Layout {
        starts,
        widths,
        end,
    }
}
