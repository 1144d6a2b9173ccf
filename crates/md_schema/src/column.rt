ghost use Rattle.std.specs.Prelude.{◌≡◌};
ghost use Rattle.md_schema.specs.Column.{is_cell_kind};

use crate::coded_kind::CodedKind;

/// What a column holds, which decides its width and how it is read (ECMA-335 II.22 and II.24.2.6).
#[derive(Clone, Copy, Debug, Drop, PartialEq, Eq)]
pub enum ColumnKind {
    /// A byte, and a pad byte that is not read and is written as zero.
    U8Pad,
    /// A number of 2 bytes.
    U16,
    /// A number of 4 bytes.
    U32,
    /// An index into `#Strings`.
    Text,
    /// An index into `#GUID`.
    Guid,
    /// An index into `#Blob`.
    Blob,
    /// An index into `#Blob`, where a signature stands.
    Sig,
    /// A row of this table.
    Index(u8),
    /// A row of one of several tables.
    Coded(CodedKind),
    /// The first row of a run in this table.
    Start(u8),
    /// An RVA.
    Rva,
    /// An offset into the resources.
    Offset,
}

/// A column of a table: its name in the standard, and what it holds.
#[derive(Clone, Copy, Debug, Drop, PartialEq, Eq)]
pub struct Column {
    pub name: &'static str,
    pub kind: ColumnKind,
}

/// Whether a column of this kind is a cell: what it says stands in the row itself. The content that a `Sig`, `Start`,
/// `Rva` or `Offset` column leads to is read apart from its row.
pub fn is_cell(kind: ColumnKind) -> bool
    ensures { result ≡ is_cell_kind kind }
{
    !matches!(
        kind,
        ColumnKind::Sig | ColumnKind::Start(_) | ColumnKind::Rva | ColumnKind::Offset
    )
}
