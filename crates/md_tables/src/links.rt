ghost use Rattle.std.specs.Prelude.{◌≡◌, IfOk};
ghost use Rattle.md_schema.specs.Link.{link_column_of, link_table_of};
ghost use Rattle.md_schema.specs.Cell.{IsRowOf};
ghost use Rattle.md_schema.specs.Layout.{OpensTables};
ghost use Rattle.md_schema.specs.LinkedRows.{linked_of};
ghost use Rattle.md_tables.specs.inner.Columns.{ReadsColumn};

use crate::column_places::ColumnPlaces;
use crate::tables::Tables;
use cil_base::{List, NoMemory, Token};
use md_schema::{Link, link_column, link_kind, names};
use std::alloc::Global;

impl Tables {
    /// Returns all rows of the link's table whose link column decodes to exactly this token, in row order, whether the
    /// table is sorted or not (ECMA-335 II.22). Asks for the stream that was opened.
    pub fn linked(
        &self,
        alloc: Global,
        stream: &[u8],
        token: Token,
        link: Link,
    ) -> Result<List<Token>, NoMemory>
        requires { OpensTables stream.now self.now }
        ensures { IfOk result (λ rows. rows ≡ linked_of stream.now token link) }
    {
        let table = link_column(link).table;
        let count = self.rows(table);
        let mut rows = List::new(alloc);
        if count == 0 {
            return Ok(rows);
        }
        let kind = link_kind(link);
        let places = self.link_places(stream, link);
        for rid in 1..count + 1 {
            let number = places.number(stream, rid);
            if names(kind, number, token) {
                rows.push(Token { table, rid })?;
            }
        }
        Ok(rows)
    }

    /// Returns where the numbers of the link's column stand. Asks for a table that has rows.
    pub(crate) fn link_places(&self, stream: &[u8], link: Link) -> ColumnPlaces
        requires opened { OpensTables stream.now self.now }
        requires row { IsRowOf self.now (link_table_of link) 1 }
        ensures { ReadsColumn stream.now self.now (link_table_of link) (link_column_of link) result }
    {
        let place = link_column(link);
        self.column_places(stream, place.table, place.column)
    }
}
