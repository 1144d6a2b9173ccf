//! Tables, columns, links and instructions by their names (ECMA-335 II.22 and III).

ghost use Rattle.std.specs.Prelude.{◌≡◌, ◌<◌, ◌&&◌, IfSome, bytes_eq, length, position};
ghost use Rattle.md_schema.specs.Column.{is_cell_kind};
ghost use Rattle.job_text.specs.Names.{place_code, code_named, cell_column_named, link_named, table_named};

use il_code::op_name;
use md_schema::{Column, Link, columns, is_cell, link_column, links, table_name};

/// The table of that name. None exactly where no table has it.
#[tactic(auto, using(crate::proofs::NameLemmas::first_more, crate::proofs::NameLemmas::first_over), unfolding(crate::specs::Names::table_named))]
pub(crate) fn table_named(name: &str) -> Option<u8>
    ensures { result ≡ table_named name.now }
{
    for table in 0..0x2d {
        if table_name(table) == Some(name) {
            return Some(table);
        }
    }
    None
}

/// The link of that name. None exactly where no link has it.
#[tactic(auto, unfolding(crate::specs::Names::link_named))]
pub(crate) fn link_named(name: &str) -> Option<Link>
    ensures { result ≡ link_named name.now }
{
    for link in links() {
        if link_column(*link).name == name {
            return Some(*link);
        }
    }
    None
}

/// The number of the table's column of that name which is a cell. None exactly where there is none.
#[tactic(auto, unfolding(crate::specs::Names::cell_column_named))]
pub(crate) fn cell_column_named(table: u8, name: &str) -> Option<u8>
    ensures { result ≡ cell_column_named table name.now }
{
    let place = place_among(columns(table)?, name)?;
    Some(place as u8)
}

/// The place of the first of these columns that is a cell of that name.
fn place_among(columns: &[Column], name: &str) -> Option<usize>
    ensures place { result ≡ position (λ column. bytes_eq column.name.now name.now && is_cell_kind column.kind) columns.now }
    ensures within { IfSome result (λ place. place < length columns.now) }
{
    columns
        .iter()
        .position(|column| column.name == name && is_cell(column.kind))
}

/// The code of the instruction of that name. None exactly where no instruction has it.
#[tactic(auto, using(crate::proofs::NameLemmas::first_more, crate::proofs::NameLemmas::first_over), unfolding(crate::specs::Names::code_named))]
pub(crate) fn code_named(name: &str) -> Option<u16>
    ensures { result ≡ code_named name.now }
{
    for place in 0..0x11f {
        let code = place_code(place);
        if op_name(code) == Some(name) {
            return Some(code);
        }
    }
    None
}

/// The code at a place among all of one byte and then those of two bytes.
fn place_code(place: u16) -> u16
    requires { place < 0x11f }
    ensures { result ≡ place_code place }
{
    if place < 0x100 {
        place
    } else {
        0xfe00 + (place - 0x100)
    }
}
