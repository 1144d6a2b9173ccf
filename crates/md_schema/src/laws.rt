//! Laws of the definitions, for the crates above. Each is the contract of a function that does nothing.

ghost use Rattle.md_schema.specs.Coded.{CodedDecodes};
ghost use Rattle.md_schema.specs.Reference.{ReferenceRefers};
ghost use Rattle.md_schema.specs.Runs.{RunOfRuns};
ghost use Rattle.md_schema.specs.Spelling.{EachSpelledOnce, WrittenIsRead, WrittenOnce};

/// A coded index is read as what it says, and as nothing else (ECMA-335 II.24.2.6).
pub fn coded_decodes()
    ensures { CodedDecodes }
{}

/// A number of a column that names rows is read as what it says, and as nothing else (ECMA-335 II.24.2.6).
pub fn reference_refers()
    ensures { ReferenceRefers }
{}

/// What `encode_coded` writes for the token of a row, `decode_coded` reads as that token.
pub fn written_is_read()
    ensures { WrittenIsRead }
{}

/// `encode_coded` has one answer for each token: a number only where a tag names the table, and then one.
pub fn written_once()
    ensures { WrittenOnce }
{}

/// Each token of a row that a column may name is read from exactly one number of that column.
pub fn each_spelled_once()
    ensures { EachSpelledOnce }
{}

/// The run of a row is the one that its numbers say, and none exactly where they say none (ECMA-335 II.22.37).
pub fn run_of_runs()
    ensures { RunOfRuns }
{}
