ghost use Rattle.std.specs.Prelude.{◌≡◌, ◌++◌};
ghost use Rattle.std.specs.List.{find};
ghost use Rattle.std.specs.Option.{option_map, option_to_list};
ghost use Rattle.node_model.specs.ColumnFit.{bad_column};
ghost use Rattle.node_model.specs.EditRefusals.{early_refusal, edit_rows, full_table, is_bad_name, most_rows};
ghost use Rattle.node_model.specs.EditRefusals.{owner_rows, room_refusal};
ghost use Rattle.node_model.specs.NamedTokens.{edit_names};
ghost use Rattle.node_model.specs.Nodes.{is_absent_row, is_removed_row, nodes_there};

use crate::cell_refusal::{text_refusal, wide_refusal};
use crate::fit::bad_column;
use crate::names::bad_name;
use crate::row_lists::is_root_token;
use cil_base::{MAX_RID, Token};
use md_schema::table;
use node_model::{Edit, EditRefusal, RowsThere};

/// The rows that an edit is of: the owner, then the row that is edited.
#[derive(Clone, Copy)]
struct EditRows {
    owner: Option<Token>,
    row: Option<Token>,
}

/// The owner, but for the root.
fn owner_row(owner: Token) -> Option<Token>
    ensures { option_to_list result ≡ owner_rows owner }
{
    if is_root_token(owner) {
        None
    } else {
        Some(owner)
    }
}

/// The rows that an edit is of. An entry point is named, and not edited.
fn edit_rows(edit: &Edit) -> EditRows
    ensures { option_to_list result.owner ++ option_to_list result.row ≡ edit_rows edit.now }
{
    let (owner, row) = match edit {
        Edit::SetEntry { .. } | Edit::Add { .. } => (None, None),
        Edit::Insert { owner, .. } => (owner_row(*owner), None),
        Edit::Remove { owner, token } => (owner_row(*owner), Some(*token)),
        Edit::Set { token, .. }
        | Edit::SetSig { token, .. }
        | Edit::SetBody { token, .. }
        | Edit::SetData { token, .. }
        | Edit::SetResource { token, .. }
        | Edit::IlInsert { token, .. }
        | Edit::IlRemove { token, .. }
        | Edit::IlReplace { token, .. }
        | Edit::IlHead { token, .. }
        | Edit::AddHandler { token, .. }
        | Edit::RemoveHandler { token, .. } => (None, Some(*token)),
    };
    EditRows { owner, row }
}

/// The first of them that is no row.
#[tactic(auto, using(crate::proofs::RefusalLemmas::finds))]
fn absent_refusal(rows: &RowsThere, edit: &Edit) -> Option<EditRefusal>
    ensures { result ≡ option_map EditRefusal.Absent
        (find (is_absent_row (nodes_there rows.now)) (edit_rows edit.now)) }
{
    let of = edit_rows(edit);
    match of.owner {
        Some(owner) if rows.is_absent(owner) => Some(EditRefusal::Absent(owner)),
        _ => match of.row {
            Some(row) if rows.is_absent(row) => Some(EditRefusal::Absent(row)),
            _ => None,
        },
    }
}

/// The first of them that was removed.
#[tactic(auto, using(crate::proofs::RefusalLemmas::finds))]
fn removed_refusal(rows: &RowsThere, edit: &Edit) -> Option<EditRefusal>
    ensures { result ≡ option_map EditRefusal.Removed
        (find (is_removed_row (nodes_there rows.now)) (edit_rows edit.now)) }
{
    let of = edit_rows(edit);
    match of.owner {
        Some(owner) if rows.is_removed(owner) => Some(EditRefusal::Removed(owner)),
        _ => match of.row {
            Some(row) if rows.is_removed(row) => Some(EditRefusal::Removed(row)),
            _ => None,
        },
    }
}

/// An edit that does not fit the table.
fn column_refusal(edit: &Edit) -> Option<EditRefusal>
    ensures { result ≡ option_map EditRefusal.BadColumn (bad_column edit.now) }
{
    Some(EditRefusal::BadColumn(bad_column(edit)?))
}

/// The first token that an edit names and that is no row, was removed, or is of a table that its place does not allow.
#[tactic(auto, using(crate::proofs::RefusalLemmas::first_name))]
fn name_refusal(rows: &RowsThere, edit: &Edit) -> Option<EditRefusal>
    ensures { result ≡ option_map (λ x. EditRefusal.BadRef x.token)
        (find (is_bad_name (nodes_there rows.now)) (edit_names edit.now)) }
{
    Some(EditRefusal::BadRef(bad_name(rows, edit)?))
}

/// How many rows a table may have.
fn most_rows(table: u8) -> u64
    ensures { result ≡ most_rows table }
{
    if table == table::MODULE || table == table::ASSEMBLY {
        1
    } else {
        u64::from(MAX_RID)
    }
}

/// A table that has as many rows as it may have, those counted that were added and those that were removed.
fn full_table(rows: &RowsThere, table: u8) -> Option<EditRefusal>
    ensures { result ≡ full_table (nodes_there rows.now) table }
{
    let most = most_rows(table);
    if most <= rows.count(table) {
        Some(EditRefusal::TableFull(most))
    } else {
        None
    }
}

/// A new row for which its table has no room.
fn room_refusal(rows: &RowsThere, edit: &Edit) -> Option<EditRefusal>
    ensures { result ≡ room_refusal (nodes_there rows.now) edit.now }
{
    match edit {
        Edit::Add { table, .. } => full_table(rows, *table),
        Edit::Insert { table, .. } => full_table(rows, *table),
        _ => None,
    }
}

/// The first refusal of an edit that is tried before any key is looked at, in the order of `EditRefusal`. Takes no
/// memory.
#[tactic(auto, unfolding(node_model::specs::EditRefusals::early_refusal))]
pub(crate) fn early_refusal(rows: &RowsThere, edit: &Edit) -> Option<EditRefusal>
    ensures { result ≡ early_refusal (nodes_there rows.now) edit.now }
{
    if let Some(refusal) = absent_refusal(rows, edit) {
        return Some(refusal);
    }
    if let Some(refusal) = removed_refusal(rows, edit) {
        return Some(refusal);
    }
    if let Some(refusal) = column_refusal(edit) {
        return Some(refusal);
    }
    if let Some(refusal) = wide_refusal(edit) {
        return Some(refusal);
    }
    if let Some(refusal) = text_refusal(edit) {
        return Some(refusal);
    }
    if let Some(refusal) = name_refusal(rows, edit) {
        return Some(refusal);
    }
    room_refusal(rows, edit)
}
