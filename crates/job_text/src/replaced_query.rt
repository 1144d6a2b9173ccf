//! Questions in which each back reference is replaced by the token that it stands for.

ghost use Rattle.std.specs.Prelude.{◌≡◌, IfOk};
ghost use Rattle.job_text.specs.References.{replaced_query};
ghost use Rattle.node_model.specs.declared.query.Query.TheVariants as queries;

use crate::reference::replace_token;
use cil_base::{Bytes, NoMemory, Token};
use node_model::{OptText, Query};

/// A question in which no back reference is left, of its own. `made` has, of each command of the actor up to now, the
/// token of the row that it made, if it made one.
#[tactic(auto, unfolding(crate::specs::References::replaced_query))]
pub fn replace_in_query(made: &[Option<Token>], query: &Query) -> Result<Query, NoMemory>
    ensures { IfOk result (λ own. own ≡ replaced_query made.now query.now) }
{
    match query {
        Query::Row(token) => Ok(Query::Row(replace_token(made, *token))),
        Query::Sig(token) => Ok(Query::Sig(replace_token(made, *token))),
        Query::Members(token, table) => Ok(Query::Members(replace_token(made, *token), *table)),
        Query::Links(token, link) => Ok(Query::Links(replace_token(made, *token), *link)),
        Query::Body(token) => Ok(Query::Body(replace_token(made, *token))),
        Query::Data(token) => Ok(Query::Data(replace_token(made, *token))),
        Query::Resource(token) => Ok(Query::Resource(replace_token(made, *token))),
        Query::Facts => Ok(Query::Facts),
        Query::Name(token) => Ok(Query::Name(replace_token(made, *token))),
        Query::TypeInfo(token) => Ok(Query::TypeInfo(replace_token(made, *token))),
        Query::Method(token) => Ok(Query::Method(replace_token(made, *token))),
        Query::FindType { namespace, name } => find_type(namespace, name),
        Query::FindMember {
            of,
            table,
            name,
            sig,
        } => find_member(replace_token(made, *of), *table, name, sig),
        Query::Filled => Ok(Query::Filled),
    }
}

/// A search for a type, with copies of these texts.
fn find_type(namespace: &Bytes, name: &Bytes) -> Result<Query, NoMemory>
    ensures { IfOk result (λ own. own ≡ queries.FindType namespace.now name.now) }
{
    let namespace = namespace.copy()?;
    let name = name.copy()?;
    Ok(Query::FindType { namespace, name })
}

/// A search for a member, with copies of these texts.
fn find_member(of: Token, table: u8, name: &Bytes, sig: &OptText) -> Result<Query, NoMemory>
    ensures { IfOk result (λ own. own ≡ queries.FindMember of table name.now sig.now) }
{
    let name = name.copy()?;
    let sig = sig.copy()?;
    Ok(Query::FindMember {
        of,
        table,
        name,
        sig,
    })
}
