ghost use Rattle.std.specs.Prelude.{◌≡◌, length};
ghost use Rattle.node_model.specs.ColumnFit.{bad_column, bad_row, cell_fits, first_misfit, lesser, may_set};
ghost use Rattle.node_model.specs.ColumnFit.{sig_fits_table, told_unless};
ghost use Rattle.node_model.specs.PlacedCells.{set_placed};
ghost use Rattle.node_model.specs.KeyKinds.{has_kind};
ghost use Rattle.node_model.specs.RowFaults.{cell_columns};
ghost use Rattle.node_model.specs.Signatures.{sort_fits};
ghost use Rattle.std.specs.List.{count_by, list_any};
ghost use Rattle.md_schema.specs.Column.{is_cell_kind};
ghost use Rattle.md_schema.specs.declared.column.Column.{Column};

use crate::placed_cells::{cell_column, next_cell_column, table_columns};
use crate::row_lists::{added_table, has_list, is_link_column};
use cil_base::Token;
use md_schema::{Column, ColumnKind, is_cell};
use node_model::{Cell, Edit, Key, OptSig, has_kind, has_sig, sort_fits};
use sig_tree::Sig;

/// Whether a cell is of the kind that a column holds (ECMA-335 II.22).
fn cell_fits(kind: ColumnKind, cell: &Cell) -> bool
    ensures { result ≡ cell_fits kind cell.now }
{
    match (kind, cell) {
        (ColumnKind::U8Pad | ColumnKind::U16 | ColumnKind::U32, Cell::Num(_)) => true,
        (ColumnKind::Text, Cell::Text(_)) => true,
        (ColumnKind::Guid, Cell::Guid(_) | Cell::NoGuid) => true,
        (ColumnKind::Blob, Cell::Blob(_)) => true,
        (ColumnKind::Index(_) | ColumnKind::Coded(_), Cell::Ref(_) | Cell::NoRef) => true,
        _ => false,
    }
}

/// Whether the signature of a new row is of a sort that its table has, or none where it has none.
fn sig_fits_table(table: u8, sig: &OptSig) -> bool
    ensures { result ≡ sig_fits_table table sig.now }
{
    match sig {
        OptSig::None => !has_sig(table),
        OptSig::Is(sig) => sort_fits(table, sig.tree()),
    }
}

/// The number that is told of what does not fit.
fn told_unless(fits: bool, number: u64) -> Option<u64>
    ensures { result ≡ told_unless fits number }
{
    if fits { None } else { Some(number) }
}

/// Whether a cell may be set: it fits a cell column that is no link.
fn set_fits(table: u8, number: usize, cell: &Cell) -> bool
    ensures { result ≡ list_any may_set (set_placed table number cell.now) }
{
    match cell_column(table, number) {
        Some(column) => cell_fits(column.kind, cell) && !is_link_column(table, number),
        None => false,
    }
}

/// What is told of a cell that may not be set.
fn bad_set(table: u8, column: u8, cell: &Cell) -> Option<u64>
    ensures { result ≡ told_unless (list_any may_set (set_placed table column cell.now)) column }
{
    let fits = set_fits(table, column as usize, cell);
    told_unless(fits, u64::from(column))
}

/// The number of the first cell of a new row that does not fit its column.
fn first_misfit(table: u8, cells: &[Cell]) -> Option<u64>
    ensures { result ≡ first_misfit table cells.now }
{
    let columns = table_columns(table);
    let mut from = 0;
    for (place, cell) in cells.iter().enumerate() {
        let (number, column) = next_cell_column(columns, from)?;
        if !cell_fits(column.kind, cell) {
            return Some(place as u64);
        }
        from = number + 1;
    }
    None
}

/// How many of these columns are cell columns.
fn cells_among(columns: &[Column]) -> usize
    ensures { result ≡ count_by (λ (column : Column). is_cell_kind column.kind) columns.now }
{
    columns.iter().filter(|column| is_cell(column.kind)).count()
}

/// How many cell columns a table has.
fn cell_column_count(table: u8) -> u64
    ensures { result ≡ length (cell_columns table) }
{
    cells_among(table_columns(table)) as u64
}

/// The lesser of two numbers that differ.
fn lesser(one: u64, other: u64) -> Option<u64>
    ensures { result ≡ lesser one other }
{
    told_unless(one == other, one.min(other))
}

/// What is told of a new row that does not fit its table. `stands` says whether the table's rows stand in such a list.
#[tactic(auto, unfolding(node_model::specs::ColumnFit::bad_row))]
fn bad_row(stands: bool, table: u8, cells: &[Cell], sig: &OptSig) -> Option<u64>
    ensures { result ≡ bad_row stands table cells.now sig.now }
{
    let count = cells.len() as u64;
    if let Some(place) = first_misfit(table, cells) {
        return Some(place);
    }
    if let Some(number) = lesser(count, cell_column_count(table)) {
        return Some(number);
    }
    if let Some(number) = told_unless(stands, 0) {
        return Some(number);
    }
    told_unless(sig_fits_table(table, sig), count)
}

/// What is told of an edit of a key that the row's table does not have.
fn bad_key(key: &Key) -> Option<u64>
    ensures { result ≡ told_unless (has_kind key.now) 0 }
{
    told_unless(has_kind(key), 0)
}

/// What is told of a signature that does not fit the row's table.
fn bad_sort(token: Token, sig: &Sig) -> Option<u64>
    ensures { result ≡ told_unless (sort_fits token.table sig.now) 0 }
{
    told_unless(sort_fits(token.table, sig.tree()), 0)
}

/// What is told of an edit that does not fit the table.
pub(crate) fn bad_column(edit: &Edit) -> Option<u64>
    ensures { result ≡ bad_column edit.now }
{
    match edit {
        Edit::Set {
            token,
            column,
            cell,
        } => bad_set(token.table, *column, cell),
        Edit::SetSig { token, sig } => bad_sort(*token, sig),
        Edit::SetData { token, .. } => bad_key(&Key::Data(*token)),
        Edit::SetResource { token, .. } => bad_key(&Key::Resource(*token)),
        Edit::SetEntry { .. } => None,
        Edit::Add { table, cells, sig } => bad_row(
            added_table(*table),
            *table,
            cells.as_slice(),
            sig,
        ),
        Edit::Insert {
            owner,
            table,
            cells,
            sig,
            ..
        } => {
            let stands = has_kind(&Key::Owned(*owner, *table));
            bad_row(stands, *table, cells.as_slice(), sig)
        }
        Edit::Remove { owner, token } => told_unless(has_list(*owner, token.table), 0),
        Edit::SetBody { token, .. }
        | Edit::IlInsert { token, .. }
        | Edit::IlRemove { token, .. }
        | Edit::IlReplace { token, .. }
        | Edit::IlHead { token, .. }
        | Edit::AddHandler { token, .. }
        | Edit::RemoveHandler { token, .. } => bad_key(&Key::Body(*token)),
    }
}
