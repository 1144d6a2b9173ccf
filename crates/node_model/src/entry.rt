ghost use Rattle.std.specs.Prelude.{◌≡◌, IfOk};

use crate::edit::Edit;
use crate::edit_copy::copy_edits;
use crate::key::Key;
use crate::query::Query;
use cil_base::{List, NoMemory};
use std::alloc::Global;

/// Who asked, and at which step.
#[derive(Clone, Copy)]
pub struct By {
    /// The number of the caller.
    pub caller: u32,
    /// The number of the caller's command.
    pub command: u32,
    /// The number of the step.
    pub step: u64,
}

/// What a key was filled for.
#[derive(Drop)]
pub enum Why {
    /// A query, which looks at the key.
    Query(Query),
    /// The keys that an edit looks at, in order, up to and with the key.
    Keys(List<Key>),
}

/// An entry of a history.
#[derive(Drop)]
pub enum Entry {
    /// A key was filled: by whom, at how many entries it was found unfilled, for what, and which.
    Fill {
        by: By,
        point: u64,
        why: Why,
        key: Key,
    },
    /// The graph was edited: by whom, and what was done, one after the other.
    Edit {
        by: By,
        edits: List<Edit>,
    },
}

impl Why {
    /// An equal reason of its own.
    pub fn copy(&self, alloc: Global) -> Result<Why, NoMemory>
        ensures { IfOk result (λ copy. copy ≡ self.now) }
    {
        match self {
            Why::Query(query) => Ok(Why::Query(query.copy(alloc)?)),
            Why::Keys(keys) => Ok(Why::Keys(keys.copy()?)),
        }
    }
}

impl Entry {
    /// An equal entry of its own.
    pub fn copy(&self, alloc: Global) -> Result<Entry, NoMemory>
        ensures { IfOk result (λ copy. copy ≡ self.now) }
    {
        match self {
            Entry::Fill {
                by,
                point,
                why,
                key,
            } => Ok(Entry::Fill {
                by: *by,
                point: *point,
                why: why.copy(alloc)?,
                key: *key,
            }),
            Entry::Edit { by, edits } => Ok(Entry::Edit {
                by: *by,
                edits: copy_edits(alloc, edits)?,
            }),
        }
    }
}
