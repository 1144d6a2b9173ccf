use crate::value::add_value;
use cil_base::{Bytes, List, NoMemory, Token, escape};
use node_model::{OptText, Query, Reply};
use resolver::Next;
use std::alloc::Global;

fn add_quoted(text: &[u8], out: &mut Bytes) -> Result<(), NoMemory> {
    let escaped = escape(out.allocator(), text)?;
    out.extend(b" \"")?;
    out.extend(escaped.as_slice())?;
    out.push(b'"')
}

fn add_token(word: &[u8], token: Token, out: &mut Bytes) -> Result<(), NoMemory> {
    out.extend(word)?;
    out.push(b' ')?;
    out.extend(&token.hex_digits())
}

fn add_table(table: u8, out: &mut Bytes) -> Result<(), NoMemory> {
    let text = format!(in out.allocator(); " {table:02x}")?;
    out.extend(text.as_bytes())
}

fn add_module(number: u32, out: &mut Bytes) -> Result<(), NoMemory> {
    let text = format!(in out.allocator(); "m{number} ")?;
    out.extend(text.as_bytes())
}

fn add_sig(sig: &OptText, out: &mut Bytes) -> Result<(), NoMemory> {
    match sig {
        OptText::Is(text) => add_quoted(text.as_slice(), out),
        OptText::None => Ok(()),
    }
}

fn add_query(query: &Query, out: &mut Bytes) -> Result<(), NoMemory> {
    match query {
        Query::Row(token) => add_token(b"row", *token, out),
        Query::Sig(token) => add_token(b"sig", *token, out),
        Query::Name(token) => add_token(b"name", *token, out),
        Query::Members(token, table) => {
            add_token(b"members", *token, out)?;
            add_table(*table, out)
        }
        Query::Links(token, _) => add_token(b"nested", *token, out),
        Query::FindType { namespace, name } => {
            out.extend(b"type")?;
            add_quoted(namespace.as_slice(), out)?;
            add_quoted(name.as_slice(), out)
        }
        Query::FindMember {
            of,
            table,
            name,
            sig,
        } => {
            add_token(b"member", *of, out)?;
            add_table(*table, out)?;
            add_quoted(name.as_slice(), out)?;
            add_sig(sig, out)
        }
        _ => out.extend(b"?"),
    }
}

/// Adds a reply by its kind and the token that it is about.
fn add_reply(reply: &Reply, out: &mut Bytes) -> Result<(), NoMemory> {
    match reply {
        Reply::Row(row) => add_token(b"row", row.token, out),
        Reply::Sig(token, _) => add_token(b"sig", *token, out),
        Reply::Name(token, _) => add_token(b"name", *token, out),
        Reply::Tokens(key, _) => add_token(b"list", key.token(), out),
        Reply::Found(token) => add_token(b"found", *token, out),
        Reply::NotFound => out.extend(b"notfound"),
        Reply::Fault(fault) => add_token(b"fault", fault.key.token(), out),
        Reply::Absent(token) => add_token(b"absent", *token, out),
        Reply::Removed(token) => add_token(b"removed", *token, out),
        Reply::WrongKind(token) => add_token(b"wrongkind", *token, out),
        _ => out.extend(b"?"),
    }
}

/// What is printed of a question or an end.
pub fn next_text(alloc: Global, next: &Next) -> Result<Bytes, NoMemory> {
    let mut out = List::new(alloc);
    match next {
        Next::Question { module, query } => {
            add_module(*module, &mut out)?;
            add_query(query, &mut out)?;
        }
        Next::Found { module, token } => {
            out.extend(b"found ")?;
            let text = format!(in alloc; "m{module}")?;
            add_token(text.as_bytes(), *token, &mut out)?;
        }
        Next::Attribute(value) => {
            out.extend(b"value ")?;
            add_value(value, &mut out)?;
        }
        Next::BadAttribute => out.extend(b"bad")?,
        Next::Unresolved(name) => {
            out.extend(b"unresolved")?;
            add_quoted(name.as_slice(), &mut out)?;
        }
        Next::TooDeep => out.extend(b"toodeep")?,
        Next::Stopped(reply) => {
            out.extend(b"stopped ")?;
            add_reply(reply, &mut out)?;
        }
    }
    Ok(out)
}
