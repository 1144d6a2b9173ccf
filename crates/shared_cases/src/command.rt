//! What callers ask, and how they edit the first type.
use cil_base::{List, NoMemory, Token};
use node_model::{Cell, Edit, OptSig, Query};
use std::alloc::Global;

/// The table of types (ECMA-335 II.22.37).
const TYPE_DEF: u8 = 0x02;

/// The row that callers edit.
const FIRST_TYPE: u32 = 0x0200_0001;

/// Columns of a type's row: its flags and its name.
const FLAGS: u8 = 0;

const NAME: u8 = 1;

/// Asks for the row of a token.
pub fn row(token: u32) -> Query {
    Query::Row(Token::from_number(token))
}

/// Asks for the row of a type, counted from 0.
pub fn type_row(place: u32) -> Query {
    row(FIRST_TYPE.saturating_add(place))
}

/// Asks for the types that the image lists.
pub fn types() -> Query {
    Query::Members(Token::ROOT, TYPE_DEF)
}

/// A list of one edit.
fn one(alloc: Global, edit: Edit) -> Result<List<Edit>, NoMemory> {
    let mut edits = List::new(alloc);
    edits.push(edit)?;
    Ok(edits)
}

/// Sets a cell of the row that callers edit.
fn set(alloc: Global, column: u8, cell: Cell) -> Result<List<Edit>, NoMemory> {
    let token = Token::from_number(FIRST_TYPE);
    one(
        alloc,
        Edit::Set {
            token,
            column,
            cell,
        },
    )
}

/// Sets its flags.
pub fn set_flags(alloc: Global, flags: u64) -> Result<List<Edit>, NoMemory> {
    set(alloc, FLAGS, Cell::Num(flags))
}

/// Sets its name.
pub fn set_name(alloc: Global, name: &str) -> Result<List<Edit>, NoMemory> {
    let text = List::from_slice(alloc, name.as_bytes())?;
    set(alloc, NAME, Cell::Text(text))
}

/// The cells of a type of this name.
fn type_cells(alloc: Global, name: &str) -> Result<List<Cell>, NoMemory> {
    let mut cells = List::new(alloc);
    cells.push(Cell::Num(0))?;
    cells.push(Cell::Text(List::from_slice(alloc, name.as_bytes())?))?;
    cells.push(Cell::Text(List::new(alloc)))?;
    cells.push(Cell::NoRef)?;
    Ok(cells)
}

/// Adds a type of this name.
pub fn add_type(alloc: Global, name: &str) -> Result<List<Edit>, NoMemory> {
    let cells = type_cells(alloc, name)?;
    one(
        alloc,
        Edit::Add {
            table: TYPE_DEF,
            cells,
            sig: OptSig::None,
        },
    )
}
