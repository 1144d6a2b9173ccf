//! The queries of commands, of what their arguments say.

ghost use Rattle.std.specs.Prelude.{◌≡◌};
ghost use Rattle.job_text.specs.Commands.{query_of};
ghost use Rattle.node_model.specs.declared.query.Query.TheVariants as queries;

use crate::args::Args;
use crate::word::Question;
use node_model::Query;

/// A search for a type.
fn find_type(args: Args) -> Query
    ensures { result ≡ queries.FindType args.namespace args.name }
{
    let Args {
        namespace,
        name,
        ..
    } = args;
    Query::FindType { namespace, name }
}

/// A search for a member.
fn find_member(args: Args) -> Query
    ensures { result ≡ queries.FindMember args.token args.table args.name args.text }
{
    let Args {
        token,
        table,
        name,
        text,
        ..
    } = args;
    Query::FindMember {
        of: token,
        table,
        name,
        sig: text,
    }
}

/// The query that a command asks with these arguments.
#[tactic(auto, unfolding(crate::specs::Commands::query_of))]
pub(crate) fn query_of(question: Question, args: Args) -> Query
    ensures { result ≡ query_of question args }
{
    match question {
        Question::Row => Query::Row(args.token),
        Question::Sig => Query::Sig(args.token),
        Question::Body => Query::Body(args.token),
        Question::Data => Query::Data(args.token),
        Question::Resource => Query::Resource(args.token),
        Question::Facts => Query::Facts,
        Question::Filled => Query::Filled,
        Question::Members => Query::Members(args.token, args.table),
        Question::Links => Query::Links(args.token, args.link),
        Question::Name => Query::Name(args.token),
        Question::TypeInfo => Query::TypeInfo(args.token),
        Question::Method => Query::Method(args.token),
        Question::FindType => find_type(args),
        Question::FindMember => find_member(args),
    }
}
