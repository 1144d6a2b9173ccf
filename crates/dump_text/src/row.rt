ghost use Rattle.std.specs.Prelude.{◌≡◌, ◌∷◌, ◌++◌, OnOk};
ghost use Rattle.asm_names.specs.Assembly.{hex_text};
ghost use Rattle.dump_text.specs.Rows.{cell_text, cells_text, named_cell, row_text};

use crate::names::{cell_name, table_text};
use crate::pieces::{add_decimal, add_guid, add_hex, add_quoted};
use cil_base::{Bytes, NoMemory};
use node_model::{Cell, RowValue};

/// Adds the bytes of a blob.
fn add_blob(text: &mut Bytes, bytes: &[u8]) -> Result<(), NoMemory>
    ensures { OnOk result (text.new ≡ text.old ++ 0x23 ∷ hex_text bytes.now) }
{
    text.push(b'#')?;
    add_hex(text, bytes)
}

/// Adds what is printed of a cell.
fn add_cell(text: &mut Bytes, cell: &Cell) -> Result<(), NoMemory>
    ensures { OnOk result (text.new ≡ text.old ++ cell_text cell.now) }
{
    match cell {
        Cell::Num(number) => add_decimal(text, *number),
        Cell::Text(bytes) => add_quoted(text, bytes.as_slice()),
        Cell::Guid(bytes) => add_guid(text, *bytes),
        Cell::NoGuid => text.extend(b"none"),
        Cell::Blob(bytes) => add_blob(text, bytes.as_slice()),
        Cell::Ref(token) => text.extend(&token.hex_digits()),
        Cell::NoRef => text.extend(b"none"),
    }
}

/// Adds a cell with its name; the cell comes with its number.
fn add_named(text: &mut Bytes, table: u8, number: usize, cell: &Cell) -> Result<(), NoMemory>
    ensures { OnOk result (text.new ≡ text.old ++ named_cell table (number, cell.now)) }
{
    text.push(b' ')?;
    text.extend(cell_name(table, number))?;
    text.push(b'=')?;
    add_cell(text, cell)
}

/// Adds the cells of a row, each with its name.
fn add_cells(text: &mut Bytes, table: u8, cells: &[Cell]) -> Result<(), NoMemory>
    ensures { OnOk result (text.new ≡ text.old ++ cells_text table cells.now) }
{
    for (number, cell) in cells.iter().enumerate() {
        add_named(text, table, number, cell)?;
    }
    Ok(())
}

/// Adds a row: its table, its token and its cells.
pub(crate) fn add_row(text: &mut Bytes, row: &RowValue) -> Result<(), NoMemory>
    ensures { OnOk result (text.new ≡ text.old ++ row_text row.now) }
{
    let token = row.token;
    text.extend(table_text(token.table))?;
    text.push(b' ')?;
    text.extend(&token.hex_digits())?;
    add_cells(text, token.table, row.cells.as_slice())
}
