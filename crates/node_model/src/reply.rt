ghost use Rattle.std.specs.Prelude.{◌≡◌, IfOk};

use crate::key::Key;
use crate::slot::Fault;
use crate::value::{BodyValue, ResourceValue, RowValue, copy_rows};
use cil_base::{Bytes, List, NoMemory, Token};
use pe_image::Facts;
use sig_tree::Sig;
use std::alloc::Global;

/// A type with its members, without those that were removed. The last two lists stand as their keys hold them.
#[derive(Drop)]
pub struct TypeView {
    pub row: RowValue,
    pub fields: List<RowValue>,
    pub methods: List<RowValue>,
    /// The InterfaceImpl rows of the type.
    pub interfaces: List<Token>,
    /// The NestedClass rows of the types that are nested in it.
    pub nested: List<Token>,
}

/// A method with its signature, its parameters without those that were removed, and its body.
#[derive(Drop)]
pub struct MethodView {
    pub row: RowValue,
    pub sig: Sig,
    pub params: List<RowValue>,
    pub body: BodyValue,
}

/// The answer to a query.
#[derive(Drop)]
pub enum Reply {
    /// To `Query::Row`.
    Row(RowValue),
    /// To `Query::Sig`.
    Sig(Token, Sig),
    /// To `Query::Members` and to `Query::Links`.
    Tokens(Key, List<Token>),
    /// To `Query::Body`.
    Body(Token, BodyValue),
    /// To `Query::Data`.
    Data(Token, Bytes),
    /// To `Query::Resource`.
    Resource(Token, ResourceValue),
    /// To `Query::Facts`.
    Facts(Facts),
    /// To `Query::Name`.
    Name(Token, Bytes),
    /// To `Query::TypeInfo`.
    TypeInfo(TypeView),
    /// To `Query::Method`.
    Method(MethodView),
    /// To `Query::FindType` and to `Query::FindMember`: the first that fits.
    Found(Token),
    /// To the same: none fits.
    NotFound,
    /// To `Query::Filled`: how many keys were filled.
    Filled(u64),
    /// A key that the query looks at is at fault.
    Fault(Fault),
    /// There is no such row.
    Absent(Token),
    /// The row was removed.
    Removed(Token),
    /// The table of the row has no such part.
    WrongKind(Token),
}

impl TypeView {
    /// An equal view of its own.
    pub fn copy(&self, alloc: Global) -> Result<TypeView, NoMemory>
        ensures { IfOk result (λ copy. copy ≡ self.now) }
    {
        let row = self.row.copy(alloc)?;
        let fields = copy_rows(alloc, &self.fields)?;
        let methods = copy_rows(alloc, &self.methods)?;
        let interfaces = self.interfaces.copy()?;
        let nested = self.nested.copy()?;
        Ok(TypeView {
            row,
            fields,
            methods,
            interfaces,
            nested,
        })
    }
}

impl MethodView {
    /// An equal view of its own.
    pub fn copy(&self, alloc: Global) -> Result<MethodView, NoMemory>
        ensures { IfOk result (λ copy. copy ≡ self.now) }
    {
        let row = self.row.copy(alloc)?;
        let sig = self.sig.copy(alloc)?;
        let params = copy_rows(alloc, &self.params)?;
        let body = self.body.copy(alloc)?;
        Ok(MethodView {
            row,
            sig,
            params,
            body,
        })
    }
}

impl Reply {
    /// An equal reply of its own.
    pub fn copy(&self, alloc: Global) -> Result<Reply, NoMemory>
        ensures { IfOk result (λ copy. copy ≡ self.now) }
    {
        match self {
            Reply::Row(row) => Ok(Reply::Row(row.copy(alloc)?)),
            Reply::Sig(token, sig) => Ok(Reply::Sig(*token, sig.copy(alloc)?)),
            Reply::Tokens(key, tokens) => Ok(Reply::Tokens(*key, tokens.copy()?)),
            Reply::Body(token, body) => Ok(Reply::Body(*token, body.copy(alloc)?)),
            Reply::Data(token, bytes) => Ok(Reply::Data(*token, bytes.copy()?)),
            Reply::Resource(token, value) => Ok(Reply::Resource(*token, value.copy(alloc)?)),
            Reply::Facts(facts) => Ok(Reply::Facts(facts.copy()?)),
            Reply::Name(token, name) => Ok(Reply::Name(*token, name.copy()?)),
            Reply::TypeInfo(view) => Ok(Reply::TypeInfo(view.copy(alloc)?)),
            Reply::Method(view) => Ok(Reply::Method(view.copy(alloc)?)),
            Reply::Found(token) => Ok(Reply::Found(*token)),
            Reply::NotFound => Ok(Reply::NotFound),
            Reply::Filled(count) => Ok(Reply::Filled(*count)),
            Reply::Fault(fault) => Ok(Reply::Fault(*fault)),
            Reply::Absent(token) => Ok(Reply::Absent(*token)),
            Reply::Removed(token) => Ok(Reply::Removed(*token)),
            Reply::WrongKind(token) => Ok(Reply::WrongKind(*token)),
        }
    }
}
