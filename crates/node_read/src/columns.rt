//! Numbers in the columns of rows (ECMA-335 II.22). The numbers of the columns are those of the schema.

ghost use Rattle.std.specs.Prelude.{◌≡◌, ◌<◌, ◌≤◌, ◌^◌, IsSome, codes};
ghost use Rattle.md_schema.specs.Cell.{cell_of};
ghost use Rattle.md_schema.specs.Entry.{column_of};
ghost use Rattle.md_schema.specs.Runs.{table_row_count};
ghost use Rattle.md_schema.specs.Tables.{class_layout, field_rva, manifest_resource, method_def};
ghost use Rattle.node_model.specs.Streams.{number_of_column};
ghost use Rattle.node_read.specs.inner.Opened.{IsRowThere, streams_of};

use crate::streams::Streams;
use cil_base::Token;

/// The number that stands in a column of a row.
pub(crate) fn number_at(streams: &Streams, token: Token, column: u8) -> u32
    requires row { IsRowThere (streams_of streams.now) token }
    requires column { IsSome (column_of token.table column) }
    ensures { result ≡ cell_of streams.now.tables.now token.table token.rid column }
{
    cell_at(streams, token.table, token.rid, column)
}

/// The number that stands in a column of a row, by the numbers of its table and of the row.
fn cell_at(streams: &Streams, table: u8, rid: u32, column: u8) -> u32
    requires first { 0 < rid }
    requires last { rid ≤ table_row_count streams.now.tables.now table }
    requires column { IsSome (column_of table column) }
    ensures { result ≡ cell_of streams.now.tables.now table rid column }
{
    streams.head.cell(streams.tables, table, rid, column)
}

/// The number of rows of a table.
pub(crate) fn rows(streams: &Streams, table: u8) -> u32
    ensures count { result ≡ table_row_count streams.now.tables.now table }
    ensures few { result < 2 ^ 24 }
{
    streams.head.rows(table)
}

/// RVA of a MethodDef row (II.22.26).
pub(crate) fn method_rva(streams: &Streams, token: Token) -> u32
    requires row { IsRowThere (streams_of streams.now) token }
    requires table { token.table ≡ method_def }
    ensures { result ≡ number_of_column (streams_of streams.now) token (codes "RVA") }
{
    number_at(streams, token, 0)
}

/// ImplFlags of a MethodDef row (II.22.26).
pub(crate) fn method_impl_flags(streams: &Streams, token: Token) -> u32
    requires row { IsRowThere (streams_of streams.now) token }
    requires table { token.table ≡ method_def }
    ensures { result ≡ number_of_column (streams_of streams.now) token (codes "ImplFlags") }
{
    number_at(streams, token, 1)
}

/// RVA of a FieldRVA row (II.22.18).
pub(crate) fn data_rva(streams: &Streams, token: Token) -> u32
    requires row { IsRowThere (streams_of streams.now) token }
    requires table { token.table ≡ field_rva }
    ensures { result ≡ number_of_column (streams_of streams.now) token (codes "RVA") }
{
    number_at(streams, token, 0)
}

/// Field of a FieldRVA row (II.22.18).
pub(crate) fn data_field(streams: &Streams, token: Token) -> u32
    requires row { IsRowThere (streams_of streams.now) token }
    requires table { token.table ≡ field_rva }
    ensures { result ≡ number_of_column (streams_of streams.now) token (codes "Field") }
{
    number_at(streams, token, 1)
}

/// ClassSize of a ClassLayout row (II.22.8).
pub(crate) fn class_size_of(streams: &Streams, token: Token) -> u32
    requires row { IsRowThere (streams_of streams.now) token }
    requires table { token.table ≡ class_layout }
    ensures { result ≡ number_of_column (streams_of streams.now) token (codes "ClassSize") }
{
    number_at(streams, token, 1)
}

/// Offset of a ManifestResource row (II.22.24).
pub(crate) fn resource_offset(streams: &Streams, token: Token) -> u32
    requires row { IsRowThere (streams_of streams.now) token }
    requires table { token.table ≡ manifest_resource }
    ensures { result ≡ number_of_column (streams_of streams.now) token (codes "Offset") }
{
    number_at(streams, token, 0)
}

/// Implementation of a ManifestResource row (II.22.24).
pub(crate) fn resource_implementation(streams: &Streams, token: Token) -> u32
    requires row { IsRowThere (streams_of streams.now) token }
    requires table { token.table ≡ manifest_resource }
    ensures { result ≡ number_of_column (streams_of streams.now) token (codes "Implementation") }
{
    number_at(streams, token, 3)
}
