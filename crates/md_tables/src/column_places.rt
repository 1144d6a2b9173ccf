ghost use Rattle.std.specs.Prelude.{◌≡◌, ◌≤◌, ◌+◌, length, IsSome};
ghost use Rattle.cil_base.specs.Place.{number_at};
ghost use Rattle.md_schema.specs.Cell.{IsRowOf, offset_of, place_of, read_width};
ghost use Rattle.md_schema.specs.Entry.{column_of};
ghost use Rattle.md_schema.specs.Layout.{OpensTables};
ghost use Rattle.md_tables.specs.inner.Columns.{IsReadWidth, ReadsColumn, place_in};

use crate::layout::width_of_columns;
use crate::tables::Tables;
use cil_base::number_at;
use md_schema::{ColumnKind, Counts, column_at, columns, width};

/// Where the numbers of a column stand: the place of that of the first row, the bytes from row to row, and the bytes of
/// each number.
#[derive(Clone, Copy)]
pub(crate) struct ColumnPlaces {
    first: usize,
    step: usize,
    width: u8,
}

impl ColumnPlaces {
    /// Returns the number in the column of a row.
    pub(crate) fn number(&self, stream: &[u8], rid: u32) -> u32
        requires width { IsReadWidth self.now.width }
        requires first { 1 ≤ rid }
        requires within { place_in self.now rid + self.now.width ≤ length stream.now }
        ensures { result ≡ number_at stream.now (place_in self.now rid) self.now.width }
    {
        let place = self.first + (rid as usize - 1) * self.step;
        match self.width {
            1 => number_at(stream, place, 1) as u32,
            2 => number_at(stream, place, 2) as u32,
            _ => number_at(stream, place, 4) as u32,
        }
    }
}

impl Tables {
    /// Returns where the numbers of a column stand. Asks for a table that has rows.
    pub(crate) fn column_places(&self, stream: &[u8], table: u8, column: u8) -> ColumnPlaces
        requires opened { OpensTables stream.now self.now }
        requires row { IsRowOf self.now table 1 }
        requires column { IsSome (column_of table column) }
        ensures { ReadsColumn stream.now self.now table column result }
    {
        let Some(found) = column_at(table, column) else {
            unreachable!()
        };
        ColumnPlaces {
            first: self.column_start(stream, table, column),
            step: self.row_width(table),
            width: read_width(found.kind, self.counts()),
        }
    }

    /// Returns where the column of the first row stands.
    fn column_start(&self, stream: &[u8], table: u8, column: u8) -> usize
        requires opened { OpensTables stream.now self.now }
        requires row { IsRowOf self.now table 1 }
        requires column { IsSome (column_of table column) }
        ensures { result ≡ place_of self.now table 1 column }
    {
        self.start(table) + offset(table, column, self.counts())
    }
}

/// Returns the bytes of a column that are read: of a byte and its pad the byte alone.
fn read_width(kind: ColumnKind, counts: &Counts) -> u8
    ensures { result ≡ read_width kind counts.now }
{
    match kind {
        ColumnKind::U8Pad => 1,
        _ => width(kind, counts),
    }
}

/// Returns the bytes of the columns before this one.
fn offset(table: u8, column: u8, counts: &Counts) -> usize
    requires { IsSome (column_of table column) }
    ensures offset { result ≡ offset_of counts.now table column }
    ensures few { result ≤ 36 }
{
    let Some(columns) = columns(table) else {
        unreachable!()
    };
    width_of_columns(&columns[..column as usize], counts)
}
