//! What waits for a type to be found.

ghost use Rattle.std.specs.Prelude.{◌≡◌, ◌∷◌, ◌++◌, IfOk, OnOk};

use crate::members::MemberName;
use crate::state::State;
use cil_base::{Bytes, List, NoMemory, Token};
use std::alloc::Global;

/// What waits for a type to be found.
#[derive(Drop)]
pub(crate) enum Waiting {
    /// A type of this name, nested in it.
    Nested(Bytes),
    /// A MemberRef row of a module, which it is the class of, with the name of the member.
    Class { at: u32, member: Token, name: Bytes },
    /// A type that extends it and has no such member.
    Base(MemberName),
}

impl Waiting {
    /// An equal one of its own.
    pub(crate) fn copy(&self) -> Result<Waiting, NoMemory>
        ensures { IfOk result (λ copy. copy ≡ self.now) }
    {
        match self {
            Waiting::Nested(name) => Ok(Waiting::Nested(name.copy()?)),
            Waiting::Class { at, member, name } => {
                let name = name.copy()?;
                Ok(Waiting::Class {
                    at: *at,
                    member: *member,
                    name,
                })
            }
            Waiting::Base(wanted) => Ok(Waiting::Base(wanted.copy()?)),
        }
    }
}

/// Adds copies of these at the end.
fn add_copies(all: &mut List<Waiting>, more: &[Waiting]) -> Result<(), NoMemory>
    ensures { OnOk result (all.new ≡ all.old ++ more.now) }
{
    for waiting in more {
        all.push(waiting.copy()?)?;
    }
    Ok(())
}

/// Equal ones of their own.
pub(crate) fn copy_waiting(alloc: Global, waiting: &[Waiting]) -> Result<List<Waiting>, NoMemory>
    ensures { IfOk result (λ copy. copy ≡ waiting.now) }
{
    let mut all = List::new(alloc);
    add_copies(&mut all, waiting)?;
    Ok(all)
}

/// What waits in the state, and one more, which is the first.
pub(crate) fn with_waiting(
    alloc: Global,
    state: &State,
    first: Waiting,
) -> Result<List<Waiting>, NoMemory>
    ensures { IfOk result (λ all. all ≡ first ∷ state.now.waiting) }
{
    let mut all = List::new(alloc);
    all.push(first)?;
    add_copies(&mut all, state.waiting.as_slice())?;
    Ok(all)
}
