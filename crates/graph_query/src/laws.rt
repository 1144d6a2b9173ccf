//! A law of queries, for the crates above. It is the contract of a function that does nothing.

ghost use Rattle.graph_query.specs.AnswersMeet.{QueriesMeetTheGraph};

/// Whatever bytes and edits the slots stand for: `answer` gives Need of the first key that the query reaches in the
/// whole graph and that has no slot; where each has one, it gives the reply over the whole graph.
pub fn queries_meet_the_graph()
    ensures { QueriesMeetTheGraph }
{}
