//! Laws of edits, for the crates above. Each is the contract of a function that does nothing.

ghost use Rattle.graph_edits.specs.Needs.{NeedsAreLooked};
ghost use Rattle.graph_edits.specs.Stands.{DoneIsTheNext, EditsMeetTheGraph, KeptIsTheSame, SlotsAreThoseBefore};

/// Whatever bytes and edits a graph stands for: `apply` answers Need of the keys that the edit reaches in the whole
/// graph, up to the first that has no slot; where each has one, it answers what the edit does over the whole graph.
pub fn edits_meet_the_graph()
    ensures { EditsMeetTheGraph }
{}

/// A graph in which an edit was done stands for the same bytes, and for the edits with this one behind them.
pub fn done_is_the_next()
    ensures { DoneIsTheNext }
{}

/// After an edit that was done, the keys with a slot are those before and those of the row that it made.
pub fn slots_are_those_before()
    ensures { SlotsAreThoseBefore }
{}

/// The keys that `needs` answers are the first that the edit looks at, up to the first of them that has no slot or
/// holds a fault.
pub fn needs_are_looked()
    ensures { NeedsAreLooked }
{}

/// A graph of which nothing that is seen has changed stands for what it stood for.
pub fn kept_is_the_same()
    ensures { KeptIsTheSame }
{}
