ghost use Rattle.std.specs.Prelude.{◌≡◌, IfOk};

use crate::wanted::{Published, Tried};
use cil_base::NoMemory;
use graph_query::Peek;
use node_model::{By, Edit, Query};
use std::alloc::Global;

/// A step on a core.
#[derive(Drop)]
pub enum Step {
    /// A caller asks a query.
    Peek { by: By, query: Query },
    /// A caller tries an edit.
    TryEdit { by: By, edit: Edit },
    /// The key that the step of a number, from 0, was told to need is published, with the slot that `read_key` gives.
    /// Of the keys that an edit needs it is the last.
    Publish { of: u32 },
}

/// What a step answers.
#[derive(Drop)]
pub enum StepAnswer {
    /// To `Step::Peek`.
    Peek(Peek),
    /// To `Step::TryEdit`.
    Tried(Tried),
    /// To `Step::Publish`.
    Published(Published),
    /// To `Step::Publish`, where the step of that number is no earlier one, or was not told to need a key.
    Skipped,
}

impl Step {
    /// An equal step of its own.
    pub fn copy(&self, alloc: Global) -> Result<Step, NoMemory>
        ensures { IfOk result (λ copy. copy ≡ self.now) }
    {
        match self {
            Step::Peek { by, query } => {
                let query = query.copy(alloc)?;
                Ok(Step::Peek { by: *by, query })
            }
            Step::TryEdit { by, edit } => {
                let edit = edit.copy(alloc)?;
                Ok(Step::TryEdit { by: *by, edit })
            }
            Step::Publish { of } => Ok(Step::Publish { of: *of }),
        }
    }
}

impl StepAnswer {
    /// An equal answer of its own.
    pub fn copy(&self, alloc: Global) -> Result<StepAnswer, NoMemory>
        ensures { IfOk result (λ copy. copy ≡ self.now) }
    {
        match self {
            StepAnswer::Peek(peek) => Ok(StepAnswer::Peek(peek.copy(alloc)?)),
            StepAnswer::Tried(tried) => Ok(StepAnswer::Tried(tried.copy()?)),
            StepAnswer::Published(published) => Ok(StepAnswer::Published(*published)),
            StepAnswer::Skipped => Ok(StepAnswer::Skipped),
        }
    }
}
