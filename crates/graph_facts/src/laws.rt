//! A law: a function without a body, whose contract holds of all values.

ghost use Rattle.graph_facts.specs.GraphHolds.{GraphsHold};

/// What each key of an image holds after edits: rows with a cell of its column's kind for each cell column, signatures
/// that can be spelled, lists of rows of one table, bodies that can be written; and that links and the lists of their
/// owners agree.
pub fn graphs_hold()
    ensures { GraphsHold }
{}
