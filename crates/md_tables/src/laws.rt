//! Laws of the definitions, for the crates above. Each is the contract of a function that does nothing.

ghost use Rattle.md_tables.specs.Refusal.{WholeIsNotRefused};
ghost use Rattle.md_tables.specs.Written.{RowsReadBack};

/// A row whose numbers fit its columns, written column by column, is read back cell by cell, for any columns and counts.
pub fn rows_read_back()
    ensures { RowsReadBack }
{}

/// No refusal comes of a stream that can be opened, and no two refusals come of one stream.
pub fn whole_is_not_refused()
    ensures { WholeIsNotRefused }
{}
