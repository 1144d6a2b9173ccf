ghost use Rattle.std.specs.Prelude.{◌≡◌, IfOk};

use crate::edit::OptSig;
use crate::key::Key;
use crate::slot::Slot;
use crate::value::RowValue;
use cil_base::{List, NoMemory, Token};
use std::alloc::Global;

/// What an edit makes of the rows.
#[derive(Drop)]
pub enum RowChange {
    /// The rows stay as they are.
    Stays,
    /// One is made, with its signature.
    Made(RowValue, OptSig),
    /// One is removed.
    Gone(Token),
}

/// A row that is made, of its own.
fn copy_made(alloc: Global, row: &RowValue, sig: &OptSig) -> Result<RowChange, NoMemory>
    ensures { IfOk result (λ copy. copy ≡ RowChange.Made row.now sig.now) }
{
    let row = row.copy(alloc)?;
    let sig = sig.copy(alloc)?;
    Ok(RowChange::Made(row, sig))
}

impl RowChange {
    /// An equal change of its own.
    pub fn copy(&self, alloc: Global) -> Result<RowChange, NoMemory>
        ensures { IfOk result (λ copy. copy ≡ self.now) }
    {
        match self {
            RowChange::Stays => Ok(RowChange::Stays),
            RowChange::Made(row, sig) => copy_made(alloc, row, sig),
            RowChange::Gone(token) => Ok(RowChange::Gone(*token)),
        }
    }
}

/// What an edit changes.
#[derive(Drop)]
pub struct Change {
    /// The keys that change, each with its new content.
    pub contents: List<(Key, Slot)>,
    /// What becomes of the rows.
    pub rows: RowChange,
}

/// Equal contents of their own.
fn copy_contents(alloc: Global, contents: &List<(Key, Slot)>) -> Result<List<(Key, Slot)>, NoMemory>
    ensures { IfOk result (λ copy. copy ≡ contents.now) }
{
    let mut all = List::new(alloc);
    for content in contents.as_slice() {
        all.push((content.0, content.1.copy(alloc)?))?;
    }
    Ok(all)
}

impl Change {
    /// An equal change of its own.
    pub fn copy(&self, alloc: Global) -> Result<Change, NoMemory>
        ensures { IfOk result (λ copy. copy ≡ self.now) }
    {
        let contents = copy_contents(alloc, &self.contents)?;
        let rows = self.rows.copy(alloc)?;
        Ok(Change { contents, rows })
    }
}
