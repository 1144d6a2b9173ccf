ghost use Rattle.std.specs.Prelude.{◌≡◌, map, slice_get};
ghost use Rattle.md_schema.specs.Column.{seen_columns};
ghost use Rattle.md_schema.specs.Link.{link_name_of};
ghost use Rattle.dump_text.specs.Bodies.{op_text};
ghost use Rattle.dump_text.specs.Pieces.{name_or_mark};
ghost use Rattle.dump_text.specs.Rows.{cell_name, names_of_cells, table_text};

use il_code::op_name;
use md_schema::{Column, Link, columns, is_cell, link_column};

/// The name of a table; `?` where it has none.
#[tactic(auto, unfolding(crate::specs::Rows::table_text))]
pub(crate) fn table_text(table: u8) -> &'static [u8]
    ensures { result.now ≡ table_text table }
{
    match md_schema::table_name(table) {
        Some(name) => name.as_bytes(),
        None => b"?",
    }
}

/// The name of a link.
pub(crate) fn link_text(link: Link) -> &'static [u8]
    ensures { result.now ≡ link_name_of link }
{
    link_column(link).name.as_bytes()
}

/// The name of an instruction; `?` where it has none.
#[tactic(auto, unfolding(crate::specs::Bodies::op_text))]
pub(crate) fn op_text(op: u16) -> &'static [u8]
    ensures { result.now ≡ op_text op }
{
    match op_name(op) {
        Some(name) => name.as_bytes(),
        None => b"?",
    }
}

/// The name of the cell column of a number from 0, among the cell columns of these.
fn nth_cell(columns: &'static [Column], number: usize) -> &'static [u8]
    ensures { result.now ≡ name_or_mark (slice_get (names_of_cells (seen_columns columns.now)) number) }
{
    let mut left = number;
    for column in columns {
        if is_cell(column.kind) {
            if left == 0 {
                return column.name.as_bytes();
            }
            left -= 1;
        }
    }
    b"?"
}

/// The name of a cell of a table's rows, by its number from 0; `?` where it has none.
#[tactic(auto, unfolding(crate::specs::Rows::cell_name))]
pub(crate) fn cell_name(table: u8, number: usize) -> &'static [u8]
    ensures { result.now ≡ cell_name table number }
{
    match columns(table) {
        Some(columns) => nth_cell(columns, number),
        None => b"?",
    }
}
