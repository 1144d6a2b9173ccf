ghost use Rattle.std.specs.Prelude.{◌≡◌, IfOk};
ghost use Rattle.node_model.specs.Questions.{query_key};

use crate::key::Key;
use cil_base::{Bytes, NoMemory, Token};
use md_schema::Link;
use std::alloc::Global;

/// A question to a graph.
#[derive(Drop)]
pub enum Query {
    /// The cells of a row.
    Row(Token),
    /// The signature of a row.
    Sig(Token),
    /// The rows of a table that a row owns, or the root.
    Members(Token, u8),
    /// The rows that belong to a row by a link.
    Links(Token, Link),
    /// The body of a method.
    Body(Token),
    /// The data of a FieldRVA row.
    Data(Token),
    /// What a ManifestResource row names.
    Resource(Token),
    /// What the headers say of the image as a whole.
    Facts,
    /// The name of a row: of a type, of an assembly, or of a row with a signature.
    Name(Token),
    /// A type with its members.
    TypeInfo(Token),
    /// A method with its parameters and its body.
    Method(Token),
    /// The first type of the image with this namespace and this name.
    FindType {
        namespace: Bytes,
        name: Bytes,
    },
    /// The first field or method of a type with this name, and with this printed signature where one is given.
    FindMember {
        of: Token,
        table: u8,
        name: Bytes,
        sig: OptText,
    },
    /// How many keys were filled.
    Filled,
}

/// A text, or none.
#[derive(Drop)]
pub enum OptText {
    None,
    Is(Bytes),
}

impl Query {
    /// The one key of a query that looks at one alone. None of the others, of which `Filled` looks at no key.
    pub fn key(&self) -> Option<Key>
        ensures { result ≡ query_key self.now }
    {
        match self {
            Query::Row(token) => Some(Key::Row(*token)),
            Query::Sig(token) => Some(Key::Sig(*token)),
            Query::Members(token, table) => Some(Key::Owned(*token, *table)),
            Query::Links(token, link) => Some(Key::Linked(*token, *link)),
            Query::Body(token) => Some(Key::Body(*token)),
            Query::Data(token) => Some(Key::Data(*token)),
            Query::Resource(token) => Some(Key::Resource(*token)),
            Query::Facts => Some(Key::Facts),
            Query::Name(_) => None,
            Query::TypeInfo(_) => None,
            Query::Method(_) => None,
            Query::FindType { .. } => None,
            Query::FindMember { .. } => None,
            Query::Filled => None,
        }
    }

    /// An equal query of its own.
    pub fn copy(&self, _alloc: Global) -> Result<Query, NoMemory>
        ensures { IfOk result (λ copy. copy ≡ self.now) }
    {
        match self {
            Query::Row(token) => Ok(Query::Row(*token)),
            Query::Sig(token) => Ok(Query::Sig(*token)),
            Query::Members(token, table) => Ok(Query::Members(*token, *table)),
            Query::Links(token, link) => Ok(Query::Links(*token, *link)),
            Query::Body(token) => Ok(Query::Body(*token)),
            Query::Data(token) => Ok(Query::Data(*token)),
            Query::Resource(token) => Ok(Query::Resource(*token)),
            Query::Facts => Ok(Query::Facts),
            Query::Name(token) => Ok(Query::Name(*token)),
            Query::TypeInfo(token) => Ok(Query::TypeInfo(*token)),
            Query::Method(token) => Ok(Query::Method(*token)),
            Query::FindType { namespace, name } => copy_find_type(namespace, name),
            Query::FindMember {
                of,
                table,
                name,
                sig,
            } => copy_find_member(*of, *table, name, sig),
            Query::Filled => Ok(Query::Filled),
        }
    }
}

impl OptText {
    /// An equal text of its own, or none.
    pub fn copy(&self) -> Result<OptText, NoMemory>
        ensures { IfOk result (λ copy. copy ≡ self.now) }
    {
        match self {
            OptText::None => Ok(OptText::None),
            OptText::Is(text) => Ok(OptText::Is(text.copy()?)),
        }
    }
}

/// `FindType` with copies of these texts.
fn copy_find_type(namespace: &Bytes, name: &Bytes) -> Result<Query, NoMemory>
    ensures { IfOk result (λ copy. copy ≡ Query.FindType namespace.now name.now) }
{
    let namespace = namespace.copy()?;
    let name = name.copy()?;
    Ok(Query::FindType { namespace, name })
}

/// `FindMember` with copies of these texts.
fn copy_find_member(of: Token, table: u8, name: &Bytes, sig: &OptText) -> Result<Query, NoMemory>
    ensures { IfOk result (λ copy. copy ≡ Query.FindMember of table name.now sig.now) }
{
    let name = name.copy()?;
    let sig = sig.copy()?;
    Ok(Query::FindMember {
        of,
        table,
        name,
        sig,
    })
}
