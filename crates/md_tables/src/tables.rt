ghost use Rattle.std.specs.Prelude.{◌≡◌, ◌<◌, IfErr, IfOk};
ghost use Rattle.md_schema.specs.Width.{rows_of};
ghost use Rattle.md_schema.specs.Layout.{OpensTables, first_place, table_row_width};
ghost use Rattle.md_tables.specs.Refusal.{RefusesTables};

use crate::header::{HEADER_LEN, read_counts, unsupported_table};
use crate::layout::lay_out;
use md_schema::Counts;
use std::marker::Model;

/// The tables of an image: how many rows each has, where they stand, and how wide they are. The stream itself is kept
/// elsewhere, and is handed to each call that reads from it.
#[derive(Drop)]
pub struct Tables {
    counts: Counts,
    present: usize,
    starts: [usize; 64],
    widths: [usize; 64],
}

impl Model for Tables {
    ghost use Rattle.md_schema.specs.Layout.{Head};
    ghost use Rattle.md_tables.specs.inner.Opening.{IsLaidOut};

    ghost Value = { Head };

    ghost view = { λ t. record { present = t.present; counts = t.counts } };

    ghost invariant = { λ t. IsLaidOut (record { present = t.present; counts = t.counts }) t.starts t.widths };
}

/// Why a tables stream is not opened, tried in this order; the first two only where the stream has its header's 24 bytes
/// (ECMA-335 II.24.2.6).
#[derive(Clone, Copy, Debug, Drop, PartialEq, Eq)]
pub enum TablesRefusal {
    /// The lowest bit of Valid that is none of the 38 tables.
    UnsupportedTable(u8),
    /// HeapSizes has a bit other than 1, 2 and 4.
    BadHeapSizes(u64),
    /// The header, the counts or the rows pass the stream, or a table has more than 2^24 - 1 rows.
    BadTables,
}

impl Tables {
    /// OpensTables the tables stream. Takes no memory.
    pub fn open(stream: &[u8]) -> Result<Tables, TablesRefusal>
        ensures ok { IfOk result (OpensTables stream.now) }
        ensures refused { IfErr result (RefusesTables stream.now) }
    {
        if stream.len() < HEADER_LEN {
            return Err(TablesRefusal::BadTables);
        }
        if let Some(table) = unsupported_table(stream) {
            return Err(TablesRefusal::UnsupportedTable(table));
        }
        let heap_sizes = stream[6];
        if heap_sizes >= 8 {
            return Err(TablesRefusal::BadHeapSizes(heap_sizes as u64));
        }
        let Some(found) = read_counts(stream) else {
            return Err(TablesRefusal::BadTables);
        };
        let rows = found.0;
        let present = found.1;
        let counts = Counts { rows, heap_sizes };
        let laid = lay_out(&counts, present);
        if laid.end > stream.len() {
            return Err(TablesRefusal::BadTables);
        }
        let starts = laid.starts;
        let widths = laid.widths;
        Ok(Tables {
            counts,
            present,
            starts,
            widths,
        })
    }

    /// Returns the number of rows of a table, 0 where the stream does not have it.
    pub fn rows(&self, table: u8) -> u32
        ensures { result ≡ rows_of self.now.counts table }
    {
        match self.counts.rows.get(table as usize) {
            Some(count) => *count,
            None => 0,
        }
    }

    /// Returns where the rows of a table begin.
    pub(crate) fn start(&self, table: u8) -> usize
        requires { table < 64 }
        ensures { result ≡ first_place self.now table }
    {
        self.starts[table as usize]
    }

    /// Returns the bytes of a row of a table.
    pub(crate) fn row_width(&self, table: u8) -> usize
        requires { table < 64 }
        ensures { result ≡ table_row_width self.now.counts table }
    {
        self.widths[table as usize]
    }

    /// Returns what decides the widths of columns.
    pub(crate) fn counts(&self) -> &Counts
        ensures { result.now ≡ self.now.counts }
    {
        &self.counts
    }
}
