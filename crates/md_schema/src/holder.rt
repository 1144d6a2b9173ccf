ghost use Rattle.std.specs.Prelude.{◌≡◌, ◌↔◌, IsTrue, Some};
ghost use Rattle.md_schema.specs.Entry.{holder_of, owner_of};
ghost use Rattle.md_schema.specs.declared.holder.Holder.TheVariants.{Root};

use crate::link::Link;
use crate::schema::entry;

/// Where the rows of a table are listed. Each table has one such place.
#[derive(Clone, Copy, Debug, Drop, PartialEq, Eq)]
pub enum Holder {
    /// The image itself lists all rows.
    Root,
    /// A run of a row of this table, its owner.
    Owner(u8),
    /// The row that this link's column names.
    Link(Link),
}

/// Returns where the rows of the table are listed. `None` exactly where it is not one of the 38 tables.
pub fn table_holder(table: u8) -> Option<Holder>
    ensures { result ≡ holder_of table }
{
    Some(entry(table)?.holder)
}

/// Whether the image itself lists the rows of the table.
pub fn is_root(table: u8) -> bool
    ensures { IsTrue result ↔ (holder_of table ≡ Some Root) }
{
    matches!(table_holder(table), Some(Holder::Root))
}

/// Returns the table whose rows own runs of the rows of `table`. `None` exactly where there is none.
pub fn owner(table: u8) -> Option<u8>
    ensures { result ≡ owner_of table }
{
    match table_holder(table) {
        Some(Holder::Owner(owner)) => Some(owner),
        _ => None,
    }
}
