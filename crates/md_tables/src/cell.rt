ghost use Rattle.std.specs.Prelude.{◌≡◌, IsSome};
ghost use Rattle.md_schema.specs.Entry.{column_of};
ghost use Rattle.md_schema.specs.Cell.{IsRowOf, cell_of};
ghost use Rattle.md_schema.specs.Layout.{OpensTables};

use crate::tables::Tables;

impl Tables {
    /// Returns the number of a cell, or of a `Sig`, `Start`, `Rva` or `Offset` column: of `U8Pad` the first byte alone
    /// (ECMA-335 II.22). Asks for the stream that was opened, and for a row and a column that exist.
    pub fn cell(&self, stream: &[u8], table: u8, rid: u32, column: u8) -> u32
        requires opened { OpensTables stream.now self.now }
        requires row { IsRowOf self.now table rid }
        requires column { IsSome (column_of table column) }
        ensures { result ≡ cell_of stream.now table rid column }
    {
        let places = self.column_places(stream, table, column);
        places.number(stream, rid)
    }
}
