ghost use Rattle.std.specs.Prelude.{◌≡◌, ◌<◌, IfSome, length};
ghost use Rattle.std.specs.List.{position};
ghost use Rattle.node_model.specs.KeyKinds.{has_kind, has_sig, is_root_table, is_sig_kind, may_link, owns_table};
ghost use Rattle.node_model.specs.KeyKinds.{sig_column_of};

use crate::key::Key;
use cil_base::Token;
use md_schema::{
    Column, ColumnKind, Holder, Link, columns, has_link, start_column, table, table_holder,
};

/// The number of the column of a table that is a signature. None where there is none (ECMA-335 II.22).
pub fn sig_column(table: u8) -> Option<u8>
    ensures { result ≡ sig_column_of table }
{
    let place = sig_among(columns(table)?)?;
    Some(place as u8)
}

/// The place of the first of these columns that is a signature.
fn sig_among(columns: &[Column]) -> Option<usize>
    ensures place { result ≡ position (λ column. is_sig_kind column.kind) columns.now }
    ensures within { IfSome result (λ place. place < length columns.now) }
{
    columns.iter().position(|column| is_sig(column.kind))
}

/// Whether a column of this kind is a signature.
fn is_sig(kind: ColumnKind) -> bool
    ensures { result ≡ is_sig_kind kind }
{
    matches!(kind, ColumnKind::Sig)
}

/// Whether the rows of a table have a signature.
#[tactic(auto, unfolding(crate::specs::KeyKinds::has_sig))]
pub fn has_sig(table: u8) -> bool
    ensures { result ≡ has_sig table }
{
    sig_column(table).is_some()
}

/// Whether the rows of a table own runs of the rows of `owned` (ECMA-335 II.22).
#[tactic(auto, unfolding(crate::specs::KeyKinds::owns_table))]
pub fn owns_table(table: u8, owned: u8) -> bool
    ensures { result ≡ owns_table table owned }
{
    start_column(table, owned).is_some()
}

/// Whether the image itself lists the rows of a table.
#[tactic(auto, unfolding(crate::specs::KeyKinds::is_root_table))]
pub fn is_root_table(table: u8) -> bool
    ensures { result ≡ is_root_table table }
{
    matches!(table_holder(table), Some(Holder::Root))
}

/// Whether a link's column may name rows of a table (ECMA-335 II.22).
#[tactic(auto, unfolding(crate::specs::KeyKinds::may_link))]
pub fn may_link(table: u8, link: Link) -> bool
    ensures { result ≡ may_link table link }
{
    has_link(table, link)
}

/// Whether the table of the key's row has keys of its kind. The root has lists of the tables whose rows the image
/// itself lists.
pub fn has_kind(key: &Key) -> bool
    ensures { result ≡ has_kind key.now }
{
    match key {
        Key::Row(token) => columns(token.table).is_some(),
        Key::Sig(token) => has_sig(token.table),
        Key::Owned(token, table) => has_list(*token, *table),
        Key::Linked(token, link) => may_link(token.table, *link),
        Key::Body(token) => token.table == table::METHOD_DEF,
        Key::Data(token) => token.table == table::FIELD_RVA,
        Key::Resource(token) => token.table == table::MANIFEST_RESOURCE,
        Key::Facts => true,
    }
}

/// Whether the row, or the root, owns rows of the table.
fn has_list(owner: Token, table: u8) -> bool
    ensures { result ≡ has_kind (Key.Owned owner table) }
{
    if owner.table == 0 && owner.rid == 0 {
        is_root_table(table)
    } else {
        owns_table(owner.table, table)
    }
}
