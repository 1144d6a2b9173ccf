//! The tables of the metadata as data: their columns, the widths of these, the coded indexes, and which row each
//! reference names. Its definitions say too where rows and cells stand in a tables stream, which run of rows a row owns,
//! and which rows are linked to it (ECMA-335 II.22 and II.24.2.6).
#![tactic(auto)]

mod coded;
mod coded_kind;
mod column;
mod column_width;
mod holder;
mod laws;
mod link;
mod reference;
mod schema;
pub mod table;
mod table_columns;

pub use coded::{Coded, decode_coded, encode_coded};
pub use coded_kind::{CodedKind, tables, tag_bits};
pub use column::{Column, ColumnKind, is_cell};
pub use column_width::{Counts, width};
pub use holder::{Holder, is_root, owner, table_holder};
pub use laws::{
    coded_decodes, each_spelled_once, reference_refers, run_of_runs, written_is_read, written_once,
};
pub use link::{Link, LinkColumn, has_link, link_column, link_kind, links};
pub use reference::{decode_reference, may_name, names};
pub use table_columns::{column_at, columns, start_column, table_name};
