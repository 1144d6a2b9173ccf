ghost use Rattle.std.specs.Prelude.{◌≡◌, ◌≤◌, ◌^◌};
ghost use Rattle.md_schema.specs.CodedKind.{tag_table_of, tag_bits_of};
ghost use Rattle.md_schema.specs.Coded.{Encodes, HasTag, coded_of};

use crate::coded_kind::{CodedKind, tables, tag_bits};
use cil_base::{MAX_RID, Token};

/// What a stored number says that is to name a row.
#[derive(Clone, Copy, Debug, Drop, PartialEq, Eq)]
pub enum Coded {
    /// No row: the row part is 0.
    Null,
    /// This row, which the table need not have.
    Is(Token),
    /// No table has this tag, and the row part is not 0.
    BadTag(u8),
    /// This row part, 2^24 or more, passes the rows of every table.
    Beyond(u32),
}

/// Reads `value` as a coded index. A row part of 0 is null, whatever the tag (ECMA-335 II.24.2.6).
#[tactic(auto, unfolding(crate::specs::Coded::coded_of))]
pub fn decode_coded(kind: CodedKind, value: u32) -> Coded
    ensures { result ≡ coded_of kind value }
{
    let tags = tag_count(kind);
    let tag = value % tags;
    let rid = value / tags;
    if rid == 0 {
        return Coded::Null;
    }
    let Some(table) = table_at(kind, tag) else {
        return Coded::BadTag(tag as u8);
    };
    if rid > MAX_RID {
        return Coded::Beyond(rid);
    }
    Coded::Is(Token { table, rid })
}

/// Returns the coded index that names `token`. `None` exactly where no tag names its table (ECMA-335 II.24.2.6).
pub fn encode_coded(kind: CodedKind, token: Token) -> Option<u32>
    ensures { Encodes kind token result }
{
    let tag = tag_of(kind, token.table)?;
    Some(token.rid * tag_count(kind) + tag)
}

/// Returns the tag that names the table.
fn tag_of(kind: CodedKind, table: u8) -> Option<u32>
    ensures { HasTag kind table result }
{
    let tag = tables(kind).iter().position(|named| *named == Some(table))?;
    Some(tag as u32)
}

/// Returns the table that a tag names.
fn table_at(kind: CodedKind, tag: u32) -> Option<u8>
    ensures { result ≡ tag_table_of kind tag }
{
    match tables(kind).get(tag as usize) {
        Some(named) => *named,
        None => None,
    }
}

/// Returns how many tags the bits of a tag can tell apart.
fn tag_count(kind: CodedKind) -> u32
    ensures count { result ≡ 2 ^ tag_bits_of kind }
    ensures few { result ≤ 32 }
{
    1 << tag_bits(kind)
}
