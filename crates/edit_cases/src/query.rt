//! Queries, by the words behind `query`:
//!
//! | words | query |
//! |---|---|
//! | `row TOKEN`, `sig TOKEN`, `body TOKEN`, `data TOKEN`, `resource TOKEN` | of that key |
//! | `members TOKEN TABLE`, `links TOKEN LINK` | the lists; TABLE is in hex, LINK a name |
//! | `facts`, `filled` | the facts, and how many keys were filled |
//! | `name TOKEN`, `type TOKEN`, `method TOKEN` | a name, a type with its members, a method with its parts |
//! | `findtype TEXT TEXT` | the type of this namespace and this name; a TEXT is `t/HEX` |
//! | `findmember TOKEN TABLE TEXT TEXT` | the member of this name and this printed signature, or `none` for any |

use crate::words::{bytes, part, table, token, word};
use cil_base::{Bytes, List, NoMemory};
use md_schema::{Link, link_column, links};
use node_model::{OptText, Query};
use std::alloc::Global;

/// The link of a name.
fn link(name: &str) -> Option<Link> {
    for link in links() {
        if link_column(*link).name == name {
            return Some(*link);
        }
    }
    None
}

/// The bytes of a text.
fn text(alloc: Global, word: &str) -> Result<Bytes, NoMemory> {
    bytes(alloc, part(word, 1))
}

/// A text, or none.
fn opt_text(alloc: Global, word: &str) -> Result<OptText, NoMemory> {
    if word == "none" {
        return Ok(OptText::None);
    }
    Ok(OptText::Is(text(alloc, word)?))
}

/// The type of a namespace and a name.
fn find_type(alloc: Global, line: &str) -> Result<Query, NoMemory> {
    let namespace = text(alloc, word(line, 3))?;
    let name = text(alloc, word(line, 4))?;
    Ok(Query::FindType { namespace, name })
}

/// The member of a name, and of a signature where the line has one.
fn find_member(alloc: Global, line: &str) -> Result<Query, NoMemory> {
    let name = text(alloc, word(line, 5))?;
    let sig = opt_text(alloc, word(line, 6))?;
    Ok(Query::FindMember {
        of: token(word(line, 3)),
        table: table(word(line, 4)),
        name,
        sig,
    })
}

/// A query of one token, or of none.
fn of_token(line: &str) -> Option<Query> {
    let of = token(word(line, 3));
    match word(line, 2) {
        "row" => Some(Query::Row(of)),
        "sig" => Some(Query::Sig(of)),
        "body" => Some(Query::Body(of)),
        "data" => Some(Query::Data(of)),
        "resource" => Some(Query::Resource(of)),
        "members" => Some(Query::Members(of, table(word(line, 4)))),
        "links" => Some(Query::Links(of, link(word(line, 4))?)),
        "facts" => Some(Query::Facts),
        "filled" => Some(Query::Filled),
        "name" => Some(Query::Name(of)),
        "type" => Some(Query::TypeInfo(of)),
        "method" => Some(Query::Method(of)),
        _ => None,
    }
}

/// The query of a line.
fn query(alloc: Global, line: &str) -> Result<Option<Query>, NoMemory> {
    match word(line, 2) {
        "findtype" => Ok(Some(find_type(alloc, line)?)),
        "findmember" => Ok(Some(find_member(alloc, line)?)),
        _ => Ok(of_token(line)),
    }
}

/// The query of a line, alone; none where it is none. As a list it is let go at once, whatever it holds.
pub fn queries(alloc: Global, line: &str) -> Result<List<Query>, NoMemory> {
    let mut queries = List::new(alloc);
    if let Some(query) = query(alloc, line)? {
        queries.push(query)?;
    }
    Ok(queries)
}
