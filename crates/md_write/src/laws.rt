//! Laws of the definitions, for the crates above. Each is the contract of a function that does nothing.

ghost use Rattle.md_write.specs.ColumnNumbers.{NumbersFit};
ghost use Rattle.md_write.specs.LinksRead.{LinksRead};
ghost use Rattle.md_write.specs.RunsRead.{RunsRead};
ghost use Rattle.md_write.specs.TablesRead.{StreamHoldsRows};

/// The stream of rows opens, has the counts of the rows, and each number is read back from its column.
pub fn stream_holds_rows()
    ensures { StreamHoldsRows }
{}

/// Where the starts of an owner's column never fall, each owner is read with the run from its start to the next one's,
/// and the last owner with the run to the end of the table (ECMA-335 II.22.37).
pub fn runs_read()
    ensures { RunsRead }
{}

/// The rows that are read as linked to a token are those whose number in the link's column names it, in order.
pub fn links_read()
    ensures { LinksRead }
{}

/// Numbers, texts and blobs in the heaps, rows that are there and starts of runs fit the bytes of their columns.
pub fn numbers_fit()
    ensures { NumbersFit }
{}
