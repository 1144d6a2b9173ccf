//! Queries in words: `row TOKEN`, `sig`, `body`, `data`, `resource`, `name`, `type`, `method` in the same form;
//! `members TOKEN TABLE`, `links TOKEN LINK`, `facts`, `filled`, `findtype TEXT TEXT`, `findmember TOKEN TABLE TEXT TEXT`
//! with `none` where there is no signature. TABLE is in hex.

use crate::text::{add_hex, add_text, add_token};
use cil_base::{Bytes, NoMemory, Token};
use md_schema::link_column;
use node_model::{OptText, Query};

/// Adds a word and a token.
fn add_of(text: &mut Bytes, word: &[u8], token: Token) -> Result<(), NoMemory> {
    text.extend(word)?;
    add_token(text, token)
}

/// Adds a search for a member.
fn add_find_member(
    text: &mut Bytes,
    of: Token,
    table: u8,
    name: &Bytes,
    sig: &OptText,
) -> Result<(), NoMemory> {
    add_of(text, b"findmember ", of)?;
    text.push(b' ')?;
    add_hex(text, &[table])?;
    text.push(b' ')?;
    add_text(text, name.as_slice())?;
    text.push(b' ')?;
    match sig {
        OptText::Is(sig) => add_text(text, sig.as_slice()),
        OptText::None => text.extend(b"none"),
    }
}

/// Adds a query.
pub fn add_query(text: &mut Bytes, query: &Query) -> Result<(), NoMemory> {
    match query {
        Query::Row(token) => add_of(text, b"row ", *token),
        Query::Sig(token) => add_of(text, b"sig ", *token),
        Query::Body(token) => add_of(text, b"body ", *token),
        Query::Data(token) => add_of(text, b"data ", *token),
        Query::Resource(token) => add_of(text, b"resource ", *token),
        Query::Facts => text.extend(b"facts"),
        Query::Filled => text.extend(b"filled"),
        Query::Name(token) => add_of(text, b"name ", *token),
        Query::TypeInfo(token) => add_of(text, b"type ", *token),
        Query::Method(token) => add_of(text, b"method ", *token),
        Query::Members(token, table) => {
            add_of(text, b"members ", *token)?;
            text.push(b' ')?;
            add_hex(text, &[*table])
        }
        Query::Links(token, link) => {
            add_of(text, b"links ", *token)?;
            text.push(b' ')?;
            text.extend(link_column(*link).name.as_bytes())
        }
        Query::FindType { namespace, name } => {
            text.extend(b"findtype ")?;
            add_text(text, namespace.as_slice())?;
            text.push(b' ')?;
            add_text(text, name.as_slice())
        }
        Query::FindMember {
            of,
            table,
            name,
            sig,
        } => add_find_member(text, *of, *table, name, sig),
    }
}
