ghost use Rattle.std.specs.Prelude.{◌≡◌, IfOk};

use attr_blob::AttrValue;
use cil_base::{Bytes, NoMemory, Token};
use node_model::{Query, Reply};
use std::alloc::Global;

/// What is asked next, or where it ended.
#[derive(Drop)]
pub enum Next {
    /// This is to be asked of the module of that number, and its reply given back.
    Question { module: u32, query: Query },
    /// The reference leads to this row of that module.
    Found { module: u32, token: Token },
    /// The value of the attribute.
    Attribute(AttrValue),
    /// The attribute has no constructor, a parameter that none may have, a blob that no value spells, or an enum
    /// without a field for its values.
    BadAttribute,
    /// Nothing has this name: an assembly, a type, a member or an enum. Empty where the reference has no name.
    Unresolved(Bytes),
    /// The hundredth step to another token would come next.
    TooDeep,
    /// This reply does not fit its question.
    Stopped(Reply),
}

impl Next {
    /// An equal question or end of its own.
    pub fn copy(&self, alloc: Global) -> Result<Next, NoMemory>
        ensures { IfOk result (λ copy. copy ≡ self.now) }
    {
        match self {
            Next::Question { module, query } => question(*module, query.copy(alloc)?),
            Next::Found { module, token } => Ok(Next::Found {
                module: *module,
                token: *token,
            }),
            Next::Attribute(value) => Ok(Next::Attribute(value.copy()?)),
            Next::BadAttribute => Ok(Next::BadAttribute),
            Next::Unresolved(name) => Ok(Next::Unresolved(name.copy()?)),
            Next::TooDeep => Ok(Next::TooDeep),
            Next::Stopped(reply) => Ok(Next::Stopped(reply.copy(alloc)?)),
        }
    }
}

/// A question of the module of that number.
pub(crate) fn question(at: u32, query: Query) -> Result<Next, NoMemory>
    ensures { IfOk result (λ next. next ≡ Next.Question at query) }
{
    Ok(Next::Question { module: at, query })
}
